// 01, sections 1 and 2: the sums of a block of samples, scaled and cut, and through the sections behind them.
ghost use Rattle.std.specs.Prelude.{◌≡◌, true, ◌++◌, map, ◌+◌, ◌^◌, ◌≤◌, min, length, take, drop};
ghost use Rattle.std.specs.Int.{w16};
ghost use Rattle.theory.specs.Floor.{floor_div};
ghost use Rattle.theory.specs.Sections.{outs};
ghost use Rattle.theory.specs.Tally.{held_sum};
ghost use Rattle.integer.specs.Gain.{gain_bits};
ghost use Rattle.nonrecursive.specs.EitherKind.{either, thinner_of, thin_fed, valid_at};
ghost use Rattle.q15.specs.Fixed.{cut, cut_count};
ghost use Rattle.q15.specs.FirDecimator.{summing};
ghost use Rattle.float.specs.PolyphaseOpening.{valid_in_line};
ghost use Rattle.chain.specs.Chain.{from2, chain};
ghost use Rattle.chain.specs.Cuts.{most_cuts};
ghost use Rattle.chain.specs.Same.{Same};
ghost use Rattle.chain.specs.inner.Lending.{thinner_in, fir_in, resampler_in, parts_in};
ghost use Rattle.chain.specs.inner.Batched.{most_sums, Whole, Leaves, Batched};

use crate::arrays::Arrays;
use crate::clock::{Clock, held_sum};
use crate::filter::filter;
use crate::fixed::{Fixed, MOST_SUMS};
use integer::gain::scaled;
use integer::limits::MOST_STAGES;
use nonrecursive::Thinning;
use nonrecursive::nonrecursive_decimator::MOST_NEIGHBOURS;
use nonrecursive::thinning::thin_block_at;
use q15::cut_q15;
use refusal::Moved;

// The sums, scaled and cut, in front of a span. Answers how many were cut. A loop of its own beside q15's `fill_cut`: by 01 a public function there asks for nothing, and
// that one asks that its closure may be called.
fn cut_sums(bits: u32, sums: &[i32], dst: &mut [i16]) -> u32
    requires { (length sums.now ≤ length dst.old) × (length sums.now ≤ most_sums) }
    ensures span { dst.new ≡ map (cut w16) (map (λ y. floor_div y (2 ^ bits)) sums.now) ++ drop (length sums.now) dst.old }
    ensures cuts { result ≡ cut_count w16 (map (λ y. floor_div y (2 ^ bits)) sums.now) }
{
    let mut cuts = 0;
    // By the place's number, since of what stands behind `iter_mut` in a zip a proof knows the lengths alone.
    for (i, sum) in sums.iter().enumerate() {
        let made = cut_q15(i64::from(scaled(*sum, bits)));
        dst[i] = made.value.0;
        cuts += u32::from(made.cut);
    }
    cuts
}

// Samples up to `most` sums through section 1, and the sums, scaled and cut, in front of `values`. Answers how many were taken and made, and how many were cut. The
// sums stand in a frame of their own, which the sections behind do not carry; the numbers of section 1 go one by one, since `Fixed` would be put into memory for the call.
#[inline(never)]
fn values_in(
    thinning: Thinning,
    stages: usize,
    r: usize,
    bits: u32,
    sample_counter: &mut usize,
    integrators: &mut [i32; MOST_STAGES],
    combs: &mut [i32; MOST_STAGES],
    neighbours: &mut [i32; MOST_NEIGHBOURS],
    samples: &[i32],
    most: usize,
    values: &mut [i16; MOST_SUMS],
) -> (Moved, u32)
    requires { most ≤ most_sums }
    ensures counts { let fed = thin_fed (thinner_of thinning stages r integrators.old combs.old neighbours.old sample_counter.old) samples.now most in
        (result.0.taken ≡ fed.taken) × (result.0.written ≡ length fed.written) }
    ensures state { let fed = thin_fed (thinner_of thinning stages r integrators.old combs.old neighbours.old sample_counter.old) samples.now most in
        thinner_of thinning stages r integrators.new combs.new neighbours.new sample_counter.new ≡ fed.line }
    ensures cut { let fed = thin_fed (thinner_of thinning stages r integrators.old combs.old neighbours.old sample_counter.old) samples.now most in
        let scaled = map (λ y. floor_div y (2 ^ bits)) fed.written in
        (take result.0.written values.new ≡ map (cut w16) scaled) × (result.1 ≡ cut_count w16 scaled) }
{
    let mut sums = [0i32; MOST_SUMS];
    let moved = thin_block_at(
        thinning,
        stages,
        r,
        sample_counter,
        integrators,
        combs,
        neighbours,
        samples,
        &mut sums[..most],
    );
    let cuts = cut_sums(bits, &sums[..moved.written], values);
    (moved, cuts)
}

// Samples up to `count` sums, or all of them, through sections 1 to 5. The caller has looked at the numbers, and where fewer sums than `count` leave a place of the
// span, that is what the machine does with the samples taken. More sums than MOST_SUMS are not made. Whatever the numbers are, what is counted is what was cut of the sums and
// of the FIR's, of each MOST_SUMS at most.
pub fn take_batch(
    f: Fixed,
    clock: &mut Clock,
    lent: &mut Arrays<'_>,
    samples: &[i32],
    count: usize,
    out: &mut [f32],
) -> Moved
    ensures within { (result.taken ≤ length samples.now) × (result.written ≤ length out.old) }
    ensures same { Same lent.old lent.new }
    ensures counted { let fed = thin_fed (thinner_in f clock.old.sample_counter lent.old) samples.now (min count most_sums) in
        let sums = map (λ y. floor_div y (2 ^ f.bits)) fed.written in
        let cuts = cut_count w16 sums + cut_count w16 (outs summing (fir_in f clock.old.wait lent.old) (map (cut w16) sums)) in
        (cuts ≤ most_sums + most_sums) × (clock.new.cuts ≡ held_sum most_cuts clock.old.cuts cuts) }
    ensures batched { let s = f.settings in
        let before = parts_in f clock.old lent.old in
        let places = length out.old in
        let xs = take result.taken samples.now in
        let sums = outs either before.0 xs in
        let cuts = cut_count w16 sums + cut_count w16 (outs summing before.1.1.0 (map (cut w16) sums)) in
        f.bits ≡ gain_bits s.stages s.r → valid_at s.thinning s.stages s.r clock.old.sample_counter ≡ true
        → valid_in_line (resampler_in f clock.old.mu lent.old) ≡ true
        → 1 ≤ count → count ≤ most_sums → 1 ≤ length samples.now → Leaves from2 before.1 count places
        → (1 ≤ result.taken) × Whole chain before xs places
        × Batched chain before xs out.old out.new (parts_in f clock.new lent.new) result.written
        × (clock.new.cuts ≡ held_sum most_cuts clock.old.cuts cuts) }
{
    let most = count.min(MOST_SUMS);
    let s = f.settings;
    let mut values = [0i16; MOST_SUMS];
    let (moved, cuts) = values_in(
        s.thinning,
        s.stages,
        s.r,
        f.bits,
        &mut clock.sample_counter,
        lent.integrators,
        lent.combs,
        lent.neighbours,
        samples,
        most,
        &mut values,
    );
    clock.cuts = held_sum(clock.cuts, cuts);
    let written = filter(f, clock, lent, &mut values[..moved.written], out);
    Moved {
        taken: moved.taken,
        written,
    }
}
