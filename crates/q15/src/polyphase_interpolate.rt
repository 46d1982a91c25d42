// 01, section 7: FIR interpolation of a block.
ghost use Rattle.std.specs.Prelude.{◌≡◌, ℕ, ◌+◌, ◌*◌, ◌/◌, ◌%◌, ◌≤◌, ◌<◌, min, pos, ◌*ℤ◌, length};
ghost use Rattle.refusal.specs.Outcome.{number_in};
ghost use Rattle.theory.specs.Lists.{listed};
ghost use Rattle.std.specs.Int.{w16};
ghost use Rattle.q15.specs.Fixed.{floored_product, cut, cut_count, at};
ghost use Rattle.refusal.specs.Rows.{most_block};
ghost use Rattle.q15.specs.Block.{most_factor, told_block, told_cuts};
ghost use Rattle.q15.specs.PolyphaseInterpolate.{phase_sum, phase_output, interpolated_count, interpolate_number, interpolate_answer, interpolate_span, interpolate_cuts};

use crate::block::{FirBlock, block_rows};
use crate::fir_sum::phase_sum;
use crate::fixed::{fill_cut, floored_product};
use refusal::Refusal;

// Rows 5, 6 and 7, and 8.
#[tactic(auto, using(crate::proofs::Rows::factor_some), unfolding(crate::specs::PolyphaseInterpolate::interpolate_number))]
fn interpolate_rows(l: usize, t: usize, n: usize, m: usize) -> Result<(), Refusal>
    ensures { number_in result ≡ interpolate_number l t n m }
{
    block_rows(l, t, n, m)?;
    if t % l == 0 {
        Ok(())
    } else {
        Err(Refusal::TapsMultiple)
    }
}

// How many outputs n samples, k taps to a phase and factor l make, in a span of m places.
fn interpolated_count(n: usize, k: usize, l: usize, m: usize) -> usize
    requires { (n ≤ most_block) × (l ≤ most_factor) }
    ensures { result ≡ min m (interpolated_count k l n) }
{
    if n < k {
        return 0;
    }
    let c = (n - k + 1) * l;
    m.min(c)
}

// A filter's taps, tap t of phase p at t × l + p, where an output is made for each of l phases, of k taps each.
#[derive(Clone, Copy)]
struct Phased<'a> {
    coeffs: &'a [i16],
    l: usize,
    k: usize,
    ghost few: { (1 ≤ l) × (l ≤ most_factor) },
    ghost inside: { (k * l ≤ length coeffs.now) × (k ≤ most_block) },
}

impl Phased<'_> {
    // The sum of phase p at a sample's window, times the factor.
    fn sum(self, window: &[i16], p: usize) -> i64
        requires { (p < self.l) × (length window.now ≡ self.k) }
        ensures { result ≡ phase_sum self.entry.coeffs.now self.entry.l (length window.now) window.now 0 p }
    {
        let sum = phase_sum(window, self.coeffs, p, self.l);
        self.l as i64 * sum
    }

    // The same of a sample x where a phase has one tap: 32 bits hold it.
    fn product(self, x: i16, p: usize) -> i64
        requires { (p < self.l) × (p < length self.coeffs.now) }
        ensures { result ≡ pos self.entry.l *ℤ floored_product x (at self.entry.coeffs.now p) }
    {
        let product = floored_product(x, self.coeffs[p]);
        i64::from(self.l as i32 * product)
    }
}

// The first outputs of the sample at whose window this is, one at each place. Answers how many of them were cut. Where a phase has one tap: with no sum, and 32 bits
// wide, the compiler makes several at once.
fn outputs_of(window: &[i16], by: Phased<'_>, places: &mut [i16]) -> u32
    requires { (length places.old ≤ by.l) × (length window.now ≡ by.k) }
    ensures span { places.new ≡ listed (length places.old) (phase_output by.entry.coeffs.now by.entry.l (length window.now) window.now 0) }
    ensures cuts { result ≡ cut_count w16 (listed (length places.old) (phase_sum by.entry.coeffs.now by.entry.l (length window.now) window.now 0)) }
{
    match window {
        [x] => {
            let x = *x;
            fill_cut(places, |p| by.product(x, p))
        }
        _ => fill_cut(places, |p| by.sum(window, p)),
    }
}

// An output at each place. Answers how many of them were cut. By the sample's number: of what stands behind chunks_mut a proof knows the
// lengths alone.
fn interpolate(src: &[i16], by: Phased<'_>, dst: &mut [i16]) -> u32
    requires { (length dst.old ≤ most_block) × ((i p : ℕ) → i * by.l + p < length dst.old → i + by.k ≤ length src.now) }
    ensures span { dst.new ≡ listed (length dst.old) (λ j. phase_output by.entry.coeffs.now by.entry.l by.entry.k src.now (j / by.entry.l) (j % by.entry.l)) }
    ensures cuts { result ≡ cut_count w16 (listed (length dst.old) (λ j. phase_sum by.entry.coeffs.now by.entry.l by.entry.k src.now (j / by.entry.l) (j % by.entry.l))) }
{
    let count = dst.len();
    let mut from = 0;
    let mut cuts = 0;
    for i in 0..count.div_ceil(by.l) {
        let past = count.min(from + by.l);
        let more = outputs_of(&src[i..i + by.k], by, &mut dst[from..past]);
        cuts += more;
        from = past;
    }
    cuts
}

// Makes interpolation_factor outputs of each sample, one of each phase of `coeffs`; answers how many stand in front of the span, and how
// many of them were cut. Refusals 5, 6, 7, 8.
pub fn polyphase_interpolate_q15(
    src: &[i16],
    coeffs: &[i16],
    interpolation_factor: usize,
    dst: &mut [i16],
) -> Result<FirBlock, Refusal>
    ensures answer { told_block result ≡ interpolate_answer coeffs.now interpolation_factor src.now dst.old }
    ensures span { dst.new ≡ interpolate_span coeffs.now interpolation_factor src.now dst.old }
    ensures cuts { told_cuts result ≡ interpolate_cuts coeffs.now interpolation_factor src.now dst.old }
{
    let n = src.len();
    let t = coeffs.len();
    let m = dst.len();
    interpolate_rows(interpolation_factor, t, n, m)?;
    let k = t / interpolation_factor;
    let written = interpolated_count(n, k, interpolation_factor, m);
    let by = Phased {
        coeffs,
        l: interpolation_factor,
        k,
    };
    let cuts = interpolate(src, by, &mut dst[..written]) as usize;
    Ok(FirBlock { written, cuts })
}
