// `HbfInt`: m, coeffs, delay.
ghost use Rattle.std.specs.Prelude.{◌≡◌, length};
ghost use Rattle.half_band.specs.HbfInt.{int_opening, int_reset, int_step, int_block, int_span, IntMeets};
ghost use Rattle.gauge_line.specs.States.{entry, exit, int_at};

use crate::answers::number;
use half_band::hbf_int::{interpolate_lent, open_lent, reset_lent, sample_lent};
use half_band::{INT_DELAYS, MOST_HALF_BAND_TAPS};

#[unsafe(no_mangle)]
pub extern "C" fn gauge_raw_hbf_int_new(
    taps: &[f32],
    m: &mut usize,
    coeffs: &mut [f32; MOST_HALF_BAND_TAPS],
    delay: &mut [f32; INT_DELAYS],
) -> usize
    ensures answer { record { number = result; state = int_at exit m coeffs delay } ≡ int_opening taps.now }
    ensures meets { result ≡ 0 → IntMeets taps.now (int_at exit m coeffs delay) }
{
    let answer = open_lent(taps, m, coeffs, delay);
    number(&answer)
}

#[unsafe(no_mangle)]
pub extern "C" fn gauge_raw_hbf_int_reset(
    m: &mut usize,
    coeffs: &mut [f32; MOST_HALF_BAND_TAPS],
    delay: &mut [f32; INT_DELAYS],
) -> usize
    ensures answer { record { number = result; state = int_at exit m coeffs delay } ≡ int_reset (int_at entry m coeffs delay) }
{
    let answer = reset_lent(*m, coeffs, delay);
    number(&answer)
}

#[unsafe(no_mangle)]
pub extern "C" fn gauge_raw_hbf_int_process_sample(
    m: &mut usize,
    coeffs: &mut [f32; MOST_HALF_BAND_TAPS],
    delay: &mut [f32; INT_DELAYS],
    x: f32,
    even: &mut f32,
    odd: &mut f32,
) -> usize
    ensures answer { let before = int_at entry m coeffs delay in
        let after = int_at exit m coeffs delay in
        record { number = result; value = (even.new, odd.new); state = after } ≡ int_step before x }
{
    let answer = sample_lent(*m, coeffs, delay, x);
    let both = answer.unwrap_or((0.0, 0.0));
    *even = both.0;
    *odd = both.1;
    number(&answer)
}

#[unsafe(no_mangle)]
pub extern "C" fn gauge_raw_hbf_int_process(
    m: &mut usize,
    coeffs: &mut [f32; MOST_HALF_BAND_TAPS],
    delay: &mut [f32; INT_DELAYS],
    src: &[f32],
    dst: &mut [f32],
    written: &mut usize,
) -> usize
    ensures answer { let before = int_at entry m coeffs delay in
        let after = int_at exit m coeffs delay in
        record { number = result; value = written.new; state = after } ≡ int_block before src.now (length dst.old) }
    ensures span { dst.new ≡ int_span (int_at entry m coeffs delay) src.now dst.old }
{
    let answer = interpolate_lent(*m, coeffs, delay, src, dst);
    *written = answer.unwrap_or(0);
    number(&answer)
}
