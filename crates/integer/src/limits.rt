// 01, section 1: "Stages N 1 to 8, factor r 1 to 4,096".
ghost use Rattle.std.specs.Prelude.{◌≡◌, ◌≤◌};
ghost use Rattle.refusal.specs.Outcome.{number_in};
ghost use Rattle.integer.specs.Limits.{stages_ok, factor_ok};
ghost use Rattle.integer.specs.Opening.{settings_number};

use refusal::Refusal;

pub const MOST_STAGES: usize = 8;

pub const MOST_FACTOR: usize = 4096;

// The gain bits of a sum that is scaled: "for g up to 31".
pub const MOST_GAIN_BITS: u32 = 31;

#[tactic(auto, unfolding(crate::specs::Limits::stages_ok))]
pub fn stages_ok(stages: usize) -> bool
    ensures { result ≡ stages_ok stages }
{
    (1..=MOST_STAGES).contains(&stages)
}

#[tactic(auto, unfolding(crate::specs::Limits::factor_ok))]
pub fn factor_ok(r: usize) -> bool
    ensures { result ≡ factor_ok r }
{
    (1..=MOST_FACTOR).contains(&r)
}

// Stages and a factor inside the limits, as a state that is not refused has them. What has one of them as a constant is lent the other alone.
#[derive(Clone, Copy)]
pub(crate) struct Settings {
    pub stages: usize,
    pub r: usize,
    ghost inside: { ((1 ≤ stages) × (stages ≤ 8)) × ((1 ≤ r) × (r ≤ 4096)) },
}

// Rows 1 and 2, of an opening.
#[tactic(auto, unfolding(crate::specs::Opening::settings_number))]
pub fn settings_answer(stages: usize, r: usize) -> Result<(), Refusal>
    ensures { number_in result ≡ settings_number stages r }
{
    if !stages_ok(stages) {
        return Err(Refusal::Stages);
    }
    if !factor_ok(r) {
        return Err(Refusal::Factor);
    }
    Ok(())
}
