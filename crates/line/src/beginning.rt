// A line opened and reset where its numbers and arrays lie, so that no call makes a line of 7 KB.
ghost use Rattle.std.specs.Prelude.{◌≡◌, true, ◌*◌, ◌≤◌, length, take, replicate, pos, ℕ};
ghost use Rattle.refusal.specs.Outcome.{number_in, told_reset};
ghost use Rattle.nonrecursive.specs.NonrecursiveDecimator.{most_neighbours};
ghost use Rattle.q15.specs.FirDecimator.{most_taps, fir_state, fresh_in_line};
ghost use Rattle.half_band.specs.HbfStream.{stream_of, stream_fresh};
ghost use Rattle.float.specs.PolyphaseOpening as O;
ghost use Rattle.float.specs.PolyphaseResamp as R;
ghost use Rattle.line.specs.Openings as L;
ghost use Rattle.line.specs.Placed as P;
ghost use Rattle.line.specs.inner.Numbers.{own_opening};

use crate::lent::LineNumbers;
use crate::opening::answer;
use crate::places::Places;
use chain::clock::Clock;
use chain::settings::Settings;
use float::settings::{MOST_CELLS, MOST_PHASE_TAPS, Setting};
use half_band::{DEC_CASCADE_DELAYS, MOST_DEPTH};
use integer::limits::MOST_STAGES;
use nonrecursive::Thinning;
use nonrecursive::nonrecursive_decimator::MOST_NEIGHBOURS;
use q15::{FirSettings, MOST_TAPS};
use refusal::Refusal;

// Of a line that is off in every part, which is what a refused opening leaves.
const OFF: Settings = Settings {
    stages: 0,
    r: 0,
    factor: 0,
    depth: 0,
    phases: 0,
    phase_taps: 0,
    straight: false,
    step: 0.0,
    thinning: Thinning::Integrators,
};

// Both kinds of section 1 before the first sample.
fn begin_sums(
    integrators: &mut [i32; MOST_STAGES],
    combs: &mut [i32; MOST_STAGES],
    neighbours: &mut [i32; MOST_NEIGHBOURS],
)
    ensures { (integrators.new ≡ replicate 8 (pos 0)) × (combs.new ≡ replicate 8 (pos 0)) × (neighbours.new ≡ replicate most_neighbours (pos 0)) }
{
    integrators.fill(0);
    combs.fill(0);
    neighbours.fill(0);
}

// Section 3 before the first value, of the taps that stand in front of their array. No taps: off.
fn begin_fir(
    settings: FirSettings,
    taps: &mut [i16; MOST_TAPS],
    delay: &mut [i16; MOST_TAPS],
    wait: &mut usize,
) -> FirSettings
    requires { settings.tap_count ≤ most_taps }
    ensures { fir_state taps.new result.tap_count result.factor delay.new wait.new ≡ fresh_in_line (take settings.tap_count taps.old) settings.factor }
{
    taps[settings.tap_count..].fill(0);
    delay.fill(0);
    *wait = settings.tap_count;
    if settings.tap_count == 0 {
        return FirSettings {
            tap_count: 0,
            factor: 0,
        };
    }
    settings
}

// Section 4 before the first level, at any depth.
fn begin_half_band(
    delays: &mut [f32; DEC_CASCADE_DELAYS],
    held: &mut [f32; MOST_DEPTH],
    counts: &mut [usize; MOST_DEPTH],
)
    ensures { (depth : ℕ) → stream_of depth delays.new held.new counts.new ≡ stream_fresh depth }
{
    delays.fill(0.0);
    held.fill(0.0);
    counts.fill(0);
}

// Section 5 before the first level, of the prototype that stands in front of its array. No phases: off.
#[tactic(auto, unfolding(crate::specs::Openings::resampler_fresh, float::specs::PolyphaseOpening::own_taps))]
fn begin_resampler(
    s: Settings,
    mu: &mut f32,
    delay: &mut [f32; MOST_PHASE_TAPS],
    prototype: &mut [f32; MOST_CELLS],
) -> Setting
    ensures { R.state_of result mu.new delay.new prototype.new ≡ L.resampler_fresh s (take (s.phases * s.phase_taps) prototype.old) }
{
    if s.phases == 0 {
        return Setting::clear(mu, delay, prototype);
    }
    let setting = s.resampler();
    setting.begin(mu, delay, prototype);
    setting
}

// The line of these settings before its first sample, of the taps and the prototype that stand in front of their arrays.
fn begin(settings: Settings, tap_count: usize, n: &mut LineNumbers, lent: &mut Places<'_>)
    requires { tap_count ≤ most_taps }
    ensures same { P.SamePlaces lent.old lent.new }
    ensures fresh { P.line_on n.new lent.new ≡ L.fresh (own_opening settings tap_count lent.old) }
{
    let mut clock = Clock::default();
    begin_sums(lent.integrators, lent.combs, lent.neighbours);
    let fir = begin_fir(
        settings.fir(tap_count),
        lent.taps,
        lent.fir_delay,
        &mut clock.wait,
    );
    begin_half_band(lent.delays, lent.held, lent.counts);
    let resampler = begin_resampler(settings, &mut clock.mu, lent.delay, lent.prototype);
    *n = LineNumbers {
        settings: Settings {
            stages: settings.stages,
            r: settings.r,
            factor: fir.factor,
            depth: settings.depth,
            phases: resampler.phases,
            phase_taps: resampler.phase_taps,
            straight: resampler.straight,
            step: resampler.step,
            thinning: settings.thinning,
        },
        tap_count: fir.tap_count,
        clock,
    };
}

// Taps in front of their array.
fn put_taps(own: &mut [i16; MOST_TAPS], taps: &[i16])
    requires { length taps.now ≤ most_taps }
    ensures { take (length taps.now) own.new ≡ taps.now }
{
    own[..taps.len()].copy_from_slice(taps);
}

// A prototype in front of its array; of a resampler that is off one may be longer than that, and is not looked at.
fn put_prototype(own: &mut [f32; MOST_CELLS], prototype: &[f32])
    ensures { length prototype.now ≤ O.most_cells → take (length prototype.now) own.new ≡ prototype.now }
{
    let count = prototype.len().min(MOST_CELLS);
    own[..count].copy_from_slice(&prototype[..count]);
}

// How long the arrays of a line's taps and prototype are, which no field carries: this call hands the fact over and compiles to nothing.
fn lengths(taps: &[i16; MOST_TAPS], prototype: &[f32; MOST_CELLS])
    ensures taps { length taps.now ≡ 128 }
    ensures prototype { length prototype.now ≡ 1024 }
{}

// `Line::open` where the numbers and arrays lie. Refused: all of them are zeros. Settings, taps and prototype stay three, here and in `Line::open`, plan's `feeding_plan` and
// client's `feed_all`: of six calls of these two hand them on, and four, of C's functions and of programs, have them apart and would make a struct for the call.
pub fn open_lent(
    settings: Settings,
    taps: &[i16],
    prototype: &[f32],
    n: &mut LineNumbers,
    lent: &mut Places<'_>,
) -> Result<(), Refusal>
    ensures same { P.SamePlaces lent.old lent.new }
    ensures answer { told_reset result (P.line_on n.new lent.new) ≡ L.opened (record { settings = settings; taps = taps.now; prototype = prototype.now }) }
{
    match answer(settings, taps.len(), prototype.len()) {
        Err(row) => {
            begin(OFF, 0, n, lent);
            Err(row)
        }
        Ok(()) => {
            put_taps(lent.taps, taps);
            put_prototype(lent.prototype, prototype);
            begin(settings, taps.len(), n, lent);
            Ok(())
        }
    }
}

// `Line::reset` where the numbers and arrays lie. Refusal 15, and no other: the line stays.
pub fn reset_lent(n: &mut LineNumbers, lent: &mut Places<'_>) -> Result<(), Refusal>
    ensures same { P.SamePlaces lent.old lent.new }
    ensures answer { told_reset result (P.line_on n.new lent.new) ≡ L.reset (P.line_on n.old lent.old) }
    ensures accepted { L.valid (P.line_on n.old lent.old) ≡ true → number_in result ≡ 0 }
{
    let own = *n;
    own.checked(lent.counts)?;
    lengths(lent.taps, lent.prototype);
    begin(own.settings, own.tap_count, n, lent);
    Ok(())
}
