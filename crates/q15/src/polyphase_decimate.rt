// 01, section 3: FIR decimation of a block.
ghost use Rattle.std.specs.Prelude.{◌≡◌, ℕ, ◌+◌, ◌*◌, ◌≤◌, ◌<◌, min, length};
ghost use Rattle.theory.specs.Lists.{listed};
ghost use Rattle.refusal.specs.Rows.{most_block};
ghost use Rattle.std.specs.Int.{w16};
ghost use Rattle.q15.specs.Fixed.{cut_count};
ghost use Rattle.q15.specs.Block.{told_block, told_cuts};
ghost use Rattle.q15.specs.PolyphaseDecimate.{window_sum, filtered, decimated_count, decimate_answer, decimate_span, decimate_cuts};
ghost use Rattle.q15.specs.Rounding.{Rounded};

use crate::block::{FirBlock, block_rows};
use crate::fir_sum::fir_sum;
use crate::fixed::fill_cut;
use refusal::Refusal;

// How many outputs n samples, t taps and factor d make, in a span of m places.
fn decimated_count(n: usize, t: usize, d: usize, m: usize) -> usize
    requires { (0 < d) × (0 < t) }
    ensures { result ≡ min m (decimated_count t d n) }
{
    if n < t {
        return 0;
    }
    let k = (n - t) / d + 1;
    m.min(k)
}

// An output at each place. Answers how many of them were cut.
fn decimate_of(src: &[i16], coeffs: &[i16], d: usize, dst: &mut [i16]) -> u32
    requires { (length coeffs.now ≤ most_block) × (length src.now ≤ most_block) × (length dst.old ≤ most_block)
        × ((i : ℕ) → i < length dst.old → i * d + length coeffs.now ≤ length src.now) }
    ensures span { dst.new ≡ listed (length dst.old) (λ i. filtered coeffs.now (length coeffs.now) src.now (i * d)) }
    ensures cuts { result ≡ cut_count w16 (listed (length dst.old) (λ i. window_sum coeffs.now (length coeffs.now) src.now (i * d))) }
{
    fill_cut(dst, |i| fir_sum(&src[i * d..], coeffs))
}

// The same. Few taps are a constant in each arm, so that the compiler unrolls their sum; its loop for eight and more takes eight at once. A const generic would
// be no plainer: the last arm is the same body with a number that is no constant. Nor would a struct of samples and taps with their bounds: each arm would make one, of
// a part of the taps.
pub(crate) fn decimate(src: &[i16], coeffs: &[i16], d: usize, dst: &mut [i16]) -> u32
    requires { (length coeffs.now ≤ most_block) × (length src.now ≤ most_block) × (length dst.old ≤ most_block)
        × ((i : ℕ) → i < length dst.old → i * d + length coeffs.now ≤ length src.now) }
    ensures span { dst.new ≡ listed (length dst.old) (λ i. filtered coeffs.now (length coeffs.now) src.now (i * d)) }
    ensures cuts { result ≡ cut_count w16 (listed (length dst.old) (λ i. window_sum coeffs.now (length coeffs.now) src.now (i * d))) }
{
    match coeffs.len() {
        1 => decimate_of(src, &coeffs[..1], d, dst),
        2 => decimate_of(src, &coeffs[..2], d, dst),
        3 => decimate_of(src, &coeffs[..3], d, dst),
        4 => decimate_of(src, &coeffs[..4], d, dst),
        5 => decimate_of(src, &coeffs[..5], d, dst),
        6 => decimate_of(src, &coeffs[..6], d, dst),
        7 => decimate_of(src, &coeffs[..7], d, dst),
        _ => decimate_of(src, coeffs, d, dst),
    }
}

// Filters by `coeffs` and keeps every decimation_factor-th output; answers how many stand in front of the span, and how many of them
// were cut. Refusals 5, 6, 7. The clause `rounding` bounds what their sums lose to rounding, before they are cut.
pub fn polyphase_decimate_q15(
    src: &[i16],
    coeffs: &[i16],
    decimation_factor: usize,
    dst: &mut [i16],
) -> Result<FirBlock, Refusal>
    ensures answer { told_block result ≡ decimate_answer coeffs.now decimation_factor src.now dst.old }
    ensures span { dst.new ≡ decimate_span coeffs.now decimation_factor src.now dst.old }
    ensures cuts { told_cuts result ≡ decimate_cuts coeffs.now decimation_factor src.now dst.old }
    ensures rounding { Rounded coeffs.now decimation_factor src.now }
{
    let n = src.len();
    let t = coeffs.len();
    let m = dst.len();
    block_rows(decimation_factor, t, n, m)?;
    let written = decimated_count(n, t, decimation_factor, m);
    let cuts = decimate(src, coeffs, decimation_factor, &mut dst[..written]) as usize;
    Ok(FirBlock { written, cuts })
}
