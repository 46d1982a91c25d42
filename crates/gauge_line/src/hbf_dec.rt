// `HbfDec`: m, coeffs, delay.
ghost use Rattle.std.specs.Prelude.{◌≡◌, length};
ghost use Rattle.half_band.specs.HbfDec.{dec_opening, dec_reset, dec_step, dec_block, dec_span, DecMeets};
ghost use Rattle.gauge_line.specs.States.{entry, exit, dec_at};

use crate::answers::number;
use half_band::hbf_dec::{open_lent, pair_lent, pairs_lent, reset_lent};
use half_band::{DEC_DELAYS, MOST_HALF_BAND_TAPS};

#[unsafe(no_mangle)]
pub extern "C" fn gauge_raw_hbf_dec_new(
    taps: &[f32],
    m: &mut usize,
    coeffs: &mut [f32; MOST_HALF_BAND_TAPS],
    delay: &mut [f32; DEC_DELAYS],
) -> usize
    ensures answer { record { number = result; state = dec_at exit m coeffs delay } ≡ dec_opening taps.now }
    ensures meets { result ≡ 0 → DecMeets taps.now (dec_at exit m coeffs delay) }
{
    let answer = open_lent(taps, m, coeffs, delay);
    number(&answer)
}

#[unsafe(no_mangle)]
pub extern "C" fn gauge_raw_hbf_dec_reset(
    m: &mut usize,
    coeffs: &mut [f32; MOST_HALF_BAND_TAPS],
    delay: &mut [f32; DEC_DELAYS],
) -> usize
    ensures answer { record { number = result; state = dec_at exit m coeffs delay } ≡ dec_reset (dec_at entry m coeffs delay) }
{
    let answer = reset_lent(*m, coeffs, delay);
    number(&answer)
}

#[unsafe(no_mangle)]
pub extern "C" fn gauge_raw_hbf_dec_process_pair(
    m: &mut usize,
    coeffs: &mut [f32; MOST_HALF_BAND_TAPS],
    delay: &mut [f32; DEC_DELAYS],
    a: f32,
    b: f32,
    value: &mut f32,
) -> usize
    ensures answer { let before = dec_at entry m coeffs delay in
        let after = dec_at exit m coeffs delay in
        record { number = result; value = value.new; state = after } ≡ dec_step before a b }
{
    let answer = pair_lent(*m, coeffs, delay, a, b);
    *value = answer.unwrap_or(0.0);
    number(&answer)
}

#[unsafe(no_mangle)]
pub extern "C" fn gauge_raw_hbf_dec_process(
    m: &mut usize,
    coeffs: &mut [f32; MOST_HALF_BAND_TAPS],
    delay: &mut [f32; DEC_DELAYS],
    src: &[f32],
    dst: &mut [f32],
    written: &mut usize,
) -> usize
    ensures answer { let before = dec_at entry m coeffs delay in
        let after = dec_at exit m coeffs delay in
        record { number = result; value = written.new; state = after } ≡ dec_block before src.now (length dst.old) }
    ensures span { dst.new ≡ dec_span (dec_at entry m coeffs delay) src.now dst.old }
{
    let answer = pairs_lent(*m, coeffs, delay, src, dst);
    *written = answer.unwrap_or(0);
    number(&answer)
}
