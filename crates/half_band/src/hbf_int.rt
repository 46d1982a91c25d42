// 01, section 7: the half-band interpolator, an even and an odd output of each sample.
ghost use Rattle.std.specs.Prelude.{◌≡◌, ◌*◌, length, IfOk};
ghost use Rattle.refusal.specs.Outcome.{told_on, told_opened, told_reset};
ghost use Rattle.float.specs.F32.{zero32};
ghost use Rattle.half_band.specs.HbfInt.{int_none, int_of, int_opening, int_reset, int_step, int_block, int_span, IntMeets};

use crate::half_band::{Taps, interpolate, take_sample};
use crate::limits::{INT_DELAYS, MOST_HALF_BAND_TAPS, state_answer};
use q15::padding::padded;
use refusal::Refusal;
use refusal::rows::{outside, samples_refused};

// m taps in front of coeffs; the last 2m samples in front of delay, the newest at their end. Beside HbfDec: what the two share stands in half_band.rt, and a type
// over both would ask each for its delays, its step and its definitions, for methods of a few lines.
#[derive(Drop)]
pub struct HbfInt {
    pub m: usize,
    pub coeffs: [f32; MOST_HALF_BAND_TAPS],
    pub delay: [f32; INT_DELAYS],
}

impl HbfInt {
    // The state that a caller in C is given of a refused opening.
    pub fn zeros() -> HbfInt
        ensures { result ≡ int_none }
    {
        HbfInt {
            m: 0,
            coeffs: [0.0; MOST_HALF_BAND_TAPS],
            delay: [0.0; INT_DELAYS],
        }
    }

    // An opening with the lent taps. Refusal 10: not 1 to 23 of them. As that of `HbfDec`, and so the reset below: two types as C has them, whose arrays and definitions differ.
    pub fn new(taps: &[f32]) -> Result<HbfInt, Refusal>
        ensures answer { told_opened int_none result ≡ int_opening taps.now }
        ensures meets { IfOk result (IntMeets taps.now) }
    {
        let mut state = HbfInt::zeros();
        open_lent(taps, &mut state.m, &mut state.coeffs, &mut state.delay)?;
        Ok(state)
    }

    // One sample: its even and its odd output. Refusal 15.
    pub fn process_sample(&mut self, x: f32) -> Result<(f32, f32), Refusal>
        ensures answer { told_on (zero32, zero32) result self.new ≡ int_step self.old x }
    {
        sample_lent(self.m, &self.coeffs, &mut self.delay, x)
    }

    // The samples of src, as many as dst has two places for. Refusals 15, 7.
    pub fn process(&mut self, src: &[f32], dst: &mut [f32]) -> Result<usize, Refusal>
        ensures answer { told_on 0 result self.new ≡ int_block self.old src.now (length dst.old) }
        ensures span { dst.new ≡ int_span self.old src.now dst.old }
    {
        interpolate_lent(self.m, &self.coeffs, &mut self.delay, src, dst)
    }

    // A fresh opening with the same taps. Refusal 15.
    pub fn reset(&mut self) -> Result<(), Refusal>
        ensures answer { told_reset result self.new ≡ int_reset self.old }
    {
        reset_lent(self.m, &mut self.coeffs, &mut self.delay)
    }
}

// `HbfInt::new` for the C function, into the places that it is lent: no second state is made. Those of a refused opening are zeros.
#[tactic(auto, unfolding(refusal::specs::Rows::outside), using(refusal::proofs::Limits::within, crate::proofs::Interpolators::fresh_meets))]
pub fn open_lent(
    taps: &[f32],
    m: &mut usize,
    coeffs: &mut [f32; MOST_HALF_BAND_TAPS],
    delay: &mut [f32; INT_DELAYS],
) -> Result<(), Refusal>
    ensures answer { told_reset result (int_of m.new coeffs.new delay.new) ≡ int_opening taps.now }
    ensures meets { IfOk result (λ _. IntMeets taps.now (int_of m.new coeffs.new delay.new)) }
{
    let count = taps.len();
    delay.fill(0.0);
    if outside(count, 1, MOST_HALF_BAND_TAPS) {
        *m = 0;
        coeffs.fill(0.0);
        return Err(Refusal::HalfBandTaps);
    }
    *m = count;
    *coeffs = padded(taps, 0.0);
    Ok(())
}

// `HbfInt::reset`, of the fields lent: only zeros are written. Refusal 15.
pub fn reset_lent(
    m: usize,
    coeffs: &mut [f32; MOST_HALF_BAND_TAPS],
    delay: &mut [f32; INT_DELAYS],
) -> Result<(), Refusal>
    ensures answer { told_reset result (int_of m coeffs.new delay.new) ≡ int_reset (int_of m coeffs.old delay.old) }
{
    let answer = state_answer(m, MOST_HALF_BAND_TAPS);
    if answer.is_ok() {
        coeffs[m..].fill(0.0);
        delay.fill(0.0);
    }
    answer
}

// `HbfInt::process_sample` for the C function, which is lent the state's arrays: a sample does not pay for moving them.
#[tactic(auto, unfolding(refusal::specs::Rows::outside, crate::specs::HbfInt::int_next, crate::specs::HbfInt::int_out))]
pub fn sample_lent(
    m: usize,
    coeffs: &[f32; MOST_HALF_BAND_TAPS],
    delay: &mut [f32; INT_DELAYS],
    x: f32,
) -> Result<(f32, f32), Refusal>
    ensures answer { told_on (zero32, zero32) result (int_of m coeffs.now delay.new) ≡ int_step (int_of m coeffs.now delay.old) x }
{
    state_answer(m, coeffs.len())?;
    let taps = Taps { all: &coeffs[..m] };
    Ok(take_sample(&mut delay[..2 * m], taps, x))
}

// `HbfInt::process` for the C function, likewise.
#[tactic(auto, unfolding(refusal::specs::Rows::outside))]
pub fn interpolate_lent(
    m: usize,
    coeffs: &[f32; MOST_HALF_BAND_TAPS],
    delay: &mut [f32; INT_DELAYS],
    src: &[f32],
    dst: &mut [f32],
) -> Result<usize, Refusal>
    ensures answer { let before = int_of m coeffs.now delay.old in
        let after = int_of m coeffs.now delay.new in
        told_on 0 result after ≡ int_block before src.now (length dst.old) }
    ensures span { dst.new ≡ int_span (int_of m coeffs.now delay.old) src.now dst.old }
{
    state_answer(m, MOST_HALF_BAND_TAPS)?;
    if samples_refused(src.len(), dst.len()) {
        return Err(Refusal::Samples);
    }
    let n = src.len().min(dst.len() / 2);
    interpolate(
        &mut delay[..2 * m],
        Taps { all: &coeffs[..m] },
        &src[..n],
        &mut dst[..2 * n],
    );
    Ok(2 * n)
}
