// 01, section 4: the half-band decimator, one output of each pair of samples.
ghost use Rattle.std.specs.Prelude.{◌≡◌, length, IfOk};
ghost use Rattle.refusal.specs.Outcome.{told_on, told_opened, told_reset};
ghost use Rattle.float.specs.F32.{zero32};
ghost use Rattle.half_band.specs.HbfDec.{dec_of, dec_none, dec_opening, dec_reset, dec_step, dec_block, dec_span, DecMeets};

use crate::half_band::{Taps, decimate, take_pair};
use crate::limits::{DEC_DELAYS, MOST_HALF_BAND_TAPS, state_answer};
use q15::padding::padded;
use refusal::Refusal;
use refusal::rows::{outside, samples_refused};

// m taps in front of coeffs; the last 4m samples in front of delay, the newest at their end. A number beside an array: so C holds them, in fixed memory.
#[derive(Drop)]
pub struct HbfDec {
    pub m: usize,
    pub coeffs: [f32; MOST_HALF_BAND_TAPS],
    pub delay: [f32; DEC_DELAYS],
}

impl HbfDec {
    // The state that a caller in C is given of a refused opening.
    pub fn zeros() -> HbfDec
        ensures { result ≡ dec_none }
    {
        HbfDec {
            m: 0,
            coeffs: [0.0; MOST_HALF_BAND_TAPS],
            delay: [0.0; DEC_DELAYS],
        }
    }

    // An opening with the lent taps. Refusal 10: not 1 to 23 of them.
    pub fn new(taps: &[f32]) -> Result<HbfDec, Refusal>
        ensures answer { told_opened dec_none result ≡ dec_opening taps.now }
        ensures meets { IfOk result (DecMeets taps.now) }
    {
        let mut state = HbfDec::zeros();
        open_lent(taps, &mut state.m, &mut state.coeffs, &mut state.delay)?;
        Ok(state)
    }

    // One pair. Refusal 15.
    pub fn process_pair(&mut self, a: f32, b: f32) -> Result<f32, Refusal>
        ensures answer { told_on zero32 result self.new ≡ dec_step self.old a b }
    {
        pair_lent(self.m, &self.coeffs, &mut self.delay, a, b)
    }

    // The pairs of src, as many as dst has places; an odd last sample is left unread. Refusals 15, 7.
    pub fn process(&mut self, src: &[f32], dst: &mut [f32]) -> Result<usize, Refusal>
        ensures answer { told_on 0 result self.new ≡ dec_block self.old src.now (length dst.old) }
        ensures span { dst.new ≡ dec_span self.old src.now dst.old }
    {
        pairs_lent(self.m, &self.coeffs, &mut self.delay, src, dst)
    }

    // A fresh opening with the same taps. Refusal 15.
    pub fn reset(&mut self) -> Result<(), Refusal>
        ensures answer { told_reset result self.new ≡ dec_reset self.old }
    {
        reset_lent(self.m, &mut self.coeffs, &mut self.delay)
    }
}

// `HbfDec::new` for the C function, into the places that it is lent: no second state is made. Those of a refused opening are zeros.
#[tactic(auto, unfolding(refusal::specs::Rows::outside))]
pub fn open_lent(
    taps: &[f32],
    m: &mut usize,
    coeffs: &mut [f32; MOST_HALF_BAND_TAPS],
    delay: &mut [f32; DEC_DELAYS],
) -> Result<(), Refusal>
    ensures answer { told_reset result (dec_of m.new coeffs.new delay.new) ≡ dec_opening taps.now }
    ensures meets { IfOk result (λ _. DecMeets taps.now (dec_of m.new coeffs.new delay.new)) }
{
    let count = taps.len();
    delay.fill(0.0);
    if outside(count, 1, MOST_HALF_BAND_TAPS) {
        *m = 0;
        coeffs.fill(0.0);
        return Err(Refusal::HalfBandTaps);
    }
    *m = count;
    *coeffs = padded(taps, 0.0);
    Ok(())
}

// `HbfDec::reset`, of the fields lent: only zeros are written. Refusal 15.
pub fn reset_lent(
    m: usize,
    coeffs: &mut [f32; MOST_HALF_BAND_TAPS],
    delay: &mut [f32; DEC_DELAYS],
) -> Result<(), Refusal>
    ensures answer { told_reset result (dec_of m coeffs.new delay.new) ≡ dec_reset (dec_of m coeffs.old delay.old) }
{
    let answer = state_answer(m, MOST_HALF_BAND_TAPS);
    if answer.is_ok() {
        coeffs[m..].fill(0.0);
        delay.fill(0.0);
    }
    answer
}

// `HbfDec::process_pair` for the C function, which is lent the state's arrays: a pair does not pay for moving them.
#[tactic(auto, unfolding(refusal::specs::Rows::outside, crate::specs::HbfDec::dec_next, crate::specs::HbfDec::dec_out))]
pub fn pair_lent(
    m: usize,
    coeffs: &[f32; MOST_HALF_BAND_TAPS],
    delay: &mut [f32; DEC_DELAYS],
    a: f32,
    b: f32,
) -> Result<f32, Refusal>
    ensures answer { told_on zero32 result (dec_of m coeffs.now delay.new) ≡ dec_step (dec_of m coeffs.now delay.old) a b }
{
    state_answer(m, coeffs.len())?;
    let taps = Taps { all: &coeffs[..m] };
    Ok(take_pair(&mut delay[..4 * m], taps, a, b))
}

// `HbfDec::process` for the C function, likewise.
#[tactic(auto, unfolding(refusal::specs::Rows::outside))]
pub fn pairs_lent(
    m: usize,
    coeffs: &[f32; MOST_HALF_BAND_TAPS],
    delay: &mut [f32; DEC_DELAYS],
    src: &[f32],
    dst: &mut [f32],
) -> Result<usize, Refusal>
    ensures answer { let before = dec_of m coeffs.now delay.old in
        let after = dec_of m coeffs.now delay.new in
        told_on 0 result after ≡ dec_block before src.now (length dst.old) }
    ensures span { dst.new ≡ dec_span (dec_of m coeffs.now delay.old) src.now dst.old }
{
    state_answer(m, MOST_HALF_BAND_TAPS)?;
    if samples_refused(src.len(), dst.len()) {
        return Err(Refusal::Samples);
    }
    let n = dst.len().min(src.len() / 2);
    decimate(
        &mut delay[..4 * m],
        Taps { all: &coeffs[..m] },
        &src[..2 * n],
        &mut dst[..n],
    );
    Ok(n)
}
