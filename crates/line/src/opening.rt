// 01's table from 1 down, as the line's opening has it: the first refusal that applies.
ghost use Rattle.std.specs.Prelude.{◌≡◌};
ghost use Rattle.refusal.specs.Outcome.{number_in};
ghost use Rattle.nonrecursive.specs.EitherKind.{settings_number};
ghost use Rattle.line.specs.Openings as L;

use chain::settings::Settings;
use float::settings::step_in_line;
use half_band::MOST_DEPTH;
use integer::gain::scaling_bits;
use integer::limits::settings_answer;
use nonrecursive::Thinning;
use nonrecursive::thinning::factor_for;
use refusal::Refusal;

#[tactic(auto, unfolding(nonrecursive::specs::EitherKind::settings_number, integer::specs::Opening::settings_number, integer::specs::Gain::scaling_bits))]
fn thinning_answer(thinning: Thinning, stages: usize, r: usize) -> Result<(), Refusal>
    ensures { number_in result ≡ settings_number thinning stages r }
{
    settings_answer(stages, r)?;
    if !factor_for(thinning, r) {
        return Err(Refusal::PowerOfTwo);
    }
    scaling_bits(stages, r)?;
    Ok(())
}

#[tactic(auto, unfolding(crate::specs::Openings::depth_number))]
fn depth_answer(depth: usize) -> Result<(), Refusal>
    ensures { number_in result ≡ L.depth_number depth }
{
    if MOST_DEPTH < depth {
        return Err(Refusal::Depth);
    }
    Ok(())
}

// No phases: off, and nothing else is looked at.
#[tactic(auto, unfolding(crate::specs::Openings::resampler_number))]
fn resampler_answer(s: Settings, cells: usize) -> Result<(), Refusal>
    ensures { number_in result ≡ L.resampler_number s.phases s.phase_taps cells s.step }
{
    if s.phases == 0 {
        return Ok(());
    }
    s.resampler().settings_answer(cells, step_in_line(s.step))
}

pub fn answer(s: Settings, tap_count: usize, cells: usize) -> Result<(), Refusal>
    ensures { number_in result ≡ L.number_at s tap_count cells }
{
    thinning_answer(s.thinning, s.stages, s.r)?;
    s.fir(tap_count).answer_in_line()?;
    depth_answer(s.depth)?;
    resampler_answer(s, cells)
}
