// How many sums of section 1 a block may have so that a place of the span is left before the last of them: each section makes a value of every so many, and an
// output of the resampler takes it by a stride at least further.
ghost use Rattle.std.specs.Prelude.{◌≡◌, cond, true, false, List, ◌+◌, ◌-◌, ◌*◌, ◌^◌, ◌≤◌, min, eqb, Float, ℤ};
ghost use Rattle.std.specs.Float.{binary32};
ghost use Rattle.std.specs.Float.Ieee.{of_bits, mul, to_unsigned};
ghost use Rattle.q15.specs.FirDecimator.{fir_valid_in_line};
ghost use Rattle.float.specs.PolyphaseOpening.{valid_in_line};
ghost use Rattle.chain.specs.Chain.{from2, from5};
ghost use Rattle.chain.specs.inner.Parts.{fir_of, half_band_of, resampler_of, cut_on};
ghost use Rattle.chain.specs.inner.Counting.{or_one, stages_left};
ghost use Rattle.chain.specs.inner.Batched.{most_sums, Leaves};

use crate::fixed::{FEW_SAMPLES, FEW_SUMS, Fixed, MOST_SUMS};
use float::f32_to_usize_saturating;
use half_band::MOST_DEPTH;
use nonrecursive::Thinning;

// A level in the parts that a stride is counted in.
const PARTS: usize = 4096;

// How far an output takes the resampler at least, in parts: the whole parts of a step, less one, since the product is rounded. Off, it makes an output of each level.
fn stride(phases: usize, step: f32) -> usize
    ensures { result ≡ cond (eqb phases 0) 4096 (to_unsigned 64 (mul binary32 step (of_bits binary32 0x4580_0000)) - 1) }
{
    if phases == 0 {
        return PARTS;
    }
    f32_to_usize_saturating(step * 4096.0).saturating_sub(1)
}

// So many levels leave a place of those left; never more than MOST_SUMS.
fn levels_for(places: usize, stride: usize) -> usize
    ensures { (result * 4096 ≤ (places - 1) * stride) × (result ≤ most_sums) }
{
    if places == 0 {
        return 0;
    }
    let outputs = (places - 1).min(65536);
    let parts = stride.min(262144);
    MOST_SUMS.min(outputs * parts / PARTS)
}

// How many values a stage that holds so many takes in before the one that makes its pair whole.
fn before_pair(held: usize) -> usize
    ensures { (result ≡ cond (eqb held 0) 1 0) × (result ≤ 1) }
{
    usize::from(held == 0)
}

// So many values make no more than so many levels.
fn values_for(depth: usize, counts: [usize; MOST_DEPTH], levels: usize) -> usize
    requires { levels ≤ most_sums }
    ensures { (result ≡ stages_left (min depth 5) 0 counts - 1 + levels * 2 ^ min depth 5) × (result ≤ 4127) }
{
    let mut values = levels;
    // By number, which the count goes by (`stages_left`): of an iterator in reverse it would have to be told as the length of what is left.
    for k in (0..depth.min(MOST_DEPTH)).rev() {
        values = before_pair(counts[k]) + values * 2;
    }
    values
}

// A FIR without taps makes a value of each.
pub fn or_one(tap_count: usize, n: usize) -> usize
    ensures { result ≡ or_one tap_count n }
{
    if tap_count == 0 { 1 } else { n }
}

// The same, held at MOST_SUMS.
fn held_or_one(tap_count: usize, n: usize) -> usize
    ensures { result ≡ min (or_one tap_count n) most_sums }
{
    or_one(tap_count, n).min(MOST_SUMS)
}

// So many sums, or fewer, leave a place before the last of them.
fn sums_within(f: Fixed, wait: usize, counts: [usize; MOST_DEPTH], places: usize) -> usize
    ensures within { result ≤ most_sums }
    ensures leaves { (mu : Float) (taps fir_delay : List ℤ) (delays held delay prototype : List Float) →
        let resampler = resampler_of f mu delay prototype in
        fir_valid_in_line f.tap_count f.settings.factor wait ≡ true → valid_in_line resampler ≡ true → from5.due resampler ≡ false → 1 ≤ places
        → Leaves from2 (cut_on (fir_of f wait taps fir_delay) (half_band_of f delays held counts) resampler) result places }
{
    let levels = levels_for(places, stride(f.settings.phases, f.settings.step));
    let values = values_for(f.settings.depth, counts, levels);
    let first = held_or_one(f.tap_count, wait);
    let period = held_or_one(f.tap_count, f.settings.factor);
    (first + values * period).min(MOST_SUMS)
}

// Fewer sums than these are not worth a block. Of neighbours those of FEW_SAMPLES samples: there a sample costs many times as much by itself. Their factor is a power
// of two, so no division is wanted.
fn few_sums(thinning: Thinning, r: usize) -> usize
    ensures { 1 ≤ result }
{
    match thinning {
        Thinning::Integrators => FEW_SUMS,
        Thinning::Neighbours => match r {
            1 => FEW_SAMPLES,
            2 => FEW_SAMPLES / 2,
            4 => FEW_SAMPLES / 4,
            _ => 1,
        },
    }
}

// How many sums a block may have where no output is due and so many places are left; 0 where it would have so few that they go faster one by one.
pub fn sums_for(f: Fixed, wait: usize, counts: [usize; MOST_DEPTH], places: usize) -> usize
    ensures within { (result ≤ most_sums) × (1 ≤ result → 1 ≤ places) }
    ensures leaves { (mu : Float) (taps fir_delay : List ℤ) (delays held delay prototype : List Float) →
        let resampler = resampler_of f mu delay prototype in
        fir_valid_in_line f.tap_count f.settings.factor wait ≡ true → valid_in_line resampler ≡ true → from5.due resampler ≡ false → 1 ≤ result
        → Leaves from2 (cut_on (fir_of f wait taps fir_delay) (half_band_of f delays held counts) resampler) result places }
{
    if places == 0 {
        return 0;
    }
    let count = sums_within(f, wait, counts, places);
    if count < few_sums(f.settings.thinning, f.settings.r) {
        return 0;
    }
    count
}
