// A line as it is parked: one that row 15 takes, with its parts that are off as zeros.
ghost use Rattle.std.specs.Prelude.{◌≡◌, ◌<◌, true, false, length, IfOk, IfErr};
ghost use Rattle.refusal.specs.Table.{number_of};
ghost use Rattle.line.specs.Openings.{valid};
ghost use Rattle.words.specs.Fields.{IsFloat};
ghost use Rattle.parking.specs.Kept.{line_by, line_kept};
ghost use Rattle.parking.specs.inner.Numbers.{fir_numbers, resampler_numbers, numbers_on};
ghost use Rattle.parking.specs.inner.Told.{Fine, Lengths};

use crate::kept::KeptLine;
use float::settings::{MOST_CELLS, MOST_PHASE_TAPS};
use half_band::{DEC_CASCADE_DELAYS, MOST_DEPTH};
use integer::limits::MOST_STAGES;
use line::{Clock, LineNumbers, Settings, numbers_valid};
use nonrecursive::nonrecursive_decimator::MOST_NEIGHBOURS;
use q15::MOST_TAPS;
use refusal::Refusal;

#[derive(Clone, Copy)]
pub(crate) struct FineLine<'a> {
    pub kept: KeptLine<'a>,
    ghost fine: { Fine (line_kept kept) },
}

// "A part that is off is parked as zeros, settings too": the FIR's numbers, since of its arrays no entry has a place then.
#[tactic(auto, unfolding(crate::specs::inner::Numbers::fir_numbers))]
fn fir_parked(n: LineNumbers) -> LineNumbers
    ensures { result ≡ fir_numbers n }
{
    if n.tap_count == 0 {
        return LineNumbers {
            settings: Settings {
                factor: 0,
                ..n.settings
            },
            clock: Clock { wait: 0, ..n.clock },
            ..n
        };
    }
    n
}

// And the resampler's.
#[tactic(auto, unfolding(crate::specs::inner::Numbers::resampler_numbers))]
fn resampler_parked(n: LineNumbers) -> LineNumbers
    ensures { result ≡ resampler_numbers n }
{
    if n.settings.phases == 0 {
        return LineNumbers {
            settings: Settings {
                phase_taps: 0,
                straight: false,
                step: 0.0,
                ..n.settings
            },
            clock: Clock { mu: 0.0, ..n.clock },
            ..n
        };
    }
    n
}

// What their types say of the fields of a line: this call hands the facts over and compiles to nothing. A ghost field of `KeptLine` would only move it to `KeptLine::of`, which
// lends a line's arrays: behind `&Line` a proof does not know their lengths.
fn typed(
    integrators: &[i32; MOST_STAGES],
    combs: &[i32; MOST_STAGES],
    neighbours: &[i32; MOST_NEIGHBOURS],
    taps: &[i16; MOST_TAPS],
    fir_delay: &[i16; MOST_TAPS],
    delays: &[f32; DEC_CASCADE_DELAYS],
    held: &[f32; MOST_DEPTH],
    counts: &[usize; MOST_DEPTH],
    delay: &[f32; MOST_PHASE_TAPS],
    prototype: &[f32; MOST_CELLS],
    step: f32,
    cuts: u32,
)
    ensures sums { (length integrators.now ≡ 8) × (length combs.now ≡ 8) × (length neighbours.now ≡ 96) }
    ensures fir { (length taps.now ≡ 128) × (length fir_delay.now ≡ 128) }
    ensures half_band { (length delays.now ≡ 480) × (length held.now ≡ 5) × (length counts.now ≡ 5) }
    ensures resampler { (length delay.now ≡ 16) × (length prototype.now ≡ 1024) }
    ensures numbers { (IsFloat step) × (cuts < 4294967296) }
{}

// The line as it is parked.
fn parked<'a>(k: &KeptLine<'a>) -> KeptLine<'a>
    ensures value { line_kept result ≡ line_by (numbers_on k.now.numbers) k.now }
    ensures typed { Lengths (line_kept result) }
{
    let numbers = resampler_parked(fir_parked(k.numbers));
    typed(
        k.integrators,
        k.combs,
        k.neighbours,
        k.taps,
        k.fir_delay,
        k.delays,
        k.held,
        k.counts,
        k.delay,
        k.prototype,
        numbers.settings.step,
        numbers.clock.cuts,
    );
    KeptLine { numbers, ..*k }
}

impl<'a> FineLine<'a> {
    // Refusal 15.
    pub(crate) fn of(k: &KeptLine<'a>) -> Result<FineLine<'a>, Refusal>
        ensures damaged { IfErr result (λ why. (number_of why ≡ 15) × (valid (line_kept k.now) ≡ false)) }
        ensures valid { IfOk result (λ line. valid (line_kept k.now) ≡ true) }
        ensures line { IfOk result (λ line. line_kept line.kept ≡ line_by (numbers_on k.now.numbers) k.now) }
    {
        if !numbers_valid(k.numbers, k.counts) {
            return Err(Refusal::State);
        }
        let kept = parked(k);
        Ok(FineLine { kept })
    }
}
