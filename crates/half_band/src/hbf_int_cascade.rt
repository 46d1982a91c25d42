// 01, section 7: blocks through a cascade of half-band interpolators, 2^depth outputs of each sample. The samples are put at the end of the places that
// the outputs will fill, and each stage turns the whole list there into twice as many values in place.
ghost use Rattle.std.specs.Prelude.{◌≡◌, ◌*◌, ◌/◌, ◌%◌, ◌^◌, ◌≤◌, ◌<◌, length, drop, IfOk};
ghost use Rattle.theory.specs.Sections.{state, outs};
ghost use Rattle.refusal.specs.Outcome.{told_on, told_opened, told_reset};
ghost use Rattle.half_band.specs.HalfBand.{flat};
ghost use Rattle.half_band.specs.HbfTaps.{stage_taps, interpolation};
ghost use Rattle.half_band.specs.Windows.{interpolator, spliced};
ghost use Rattle.half_band.specs.HbfIntCascade.{int_cascade_of, int_stage, upsampled, int_cascade_fresh, int_cascade_opening, int_cascade_reset, int_cascade_block, int_cascade_span, IntCascadeMeets};

use crate::half_band::expand;
use crate::hbf_taps::{Interpolation, StageTable, stage_at};
use crate::limits::{INT_CASCADE_DELAYS, MOST_DEPTH, rate_change, state_answer};
use refusal::Refusal;
use refusal::rows::{outside, samples_refused};

// Stage k has its last 2M samples in front of the 48 delays from 48k on. Beside DecCascade, as HbfInt beside HbfDec.
#[derive(Drop)]
pub struct HbfIntCascade {
    pub depth: usize,
    pub delays: [f32; INT_CASCADE_DELAYS],
}

// The values in the second half of the span go through stage k, and their outputs fill it.
fn expand_stage<T: StageTable>(k: usize, delays: &mut [f32; INT_CASCADE_DELAYS], span: &mut [f32])
    requires { (k < 5) × (length span.old % 2 ≡ 0) }
    ensures { let taps = stage_taps T.table k in
        let window = int_stage (stage_taps T.table) k delays.old in
        let taken = drop (length span.old / 2) span.old in
        (delays.new ≡ spliced (48 * k) (2 * length taps) (state (interpolator taps) window taken) delays.old) × (span.new ≡ flat (outs (interpolator taps) window taken)) }
{
    let (taps, window) = stage_at::<T>(k, 2);
    expand(&mut delays[window], taps, span)
}

// The samples go through the first `depth` stages, and their outputs fill the span.
fn expand_stages(
    depth: usize,
    delays: &mut [f32; INT_CASCADE_DELAYS],
    src: &[f32],
    span: &mut [f32],
)
    requires { (depth ≤ 5) × (length span.old ≡ length src.now * 2 ^ depth) }
    ensures { let made = upsampled (stage_taps interpolation) depth 0 delays.old src.now in
        (delays.new ≡ made.delays) × (span.new ≡ made.outs) }
{
    let mut n = src.len();
    let from = span.len() - n;
    span[from..].copy_from_slice(src);
    for k in 0..depth {
        n *= 2;
        let from = span.len() - n;
        expand_stage::<Interpolation>(k, delays, &mut span[from..]);
    }
}

// `HbfIntCascade::process` for the C function, which is lent the delays: a block does not pay for moving them.
#[tactic(auto, unfolding(refusal::specs::Rows::outside), using(crate::proofs::DecCascades::frames_fit))]
pub fn samples_lent(
    depth: usize,
    delays: &mut [f32; INT_CASCADE_DELAYS],
    src: &[f32],
    dst: &mut [f32],
) -> Result<usize, Refusal>
    ensures answer { let before = int_cascade_of depth delays.old in
        let after = int_cascade_of depth delays.new in
        told_on 0 result after ≡ int_cascade_block before src.now (length dst.old) }
    ensures span { dst.new ≡ int_cascade_span (int_cascade_of depth delays.old) src.now dst.old }
{
    state_answer(depth, MOST_DEPTH)?;
    if samples_refused(src.len(), dst.len()) {
        return Err(Refusal::Samples);
    }
    let factor = rate_change(depth);
    let n = src.len().min(dst.len() / factor);
    let count = n * factor;
    expand_stages(depth, delays, &src[..n], &mut dst[..count]);
    Ok(count)
}

// `HbfIntCascade::reset`, of the fields lent: only zeros are written. Refusal 15.
#[tactic(auto, unfolding(refusal::specs::Rows::outside))]
pub fn reset_lent(depth: usize, delays: &mut [f32; INT_CASCADE_DELAYS]) -> Result<(), Refusal>
    ensures answer { told_reset result (int_cascade_of depth delays.new) ≡ int_cascade_reset (int_cascade_of depth delays.old) }
{
    let answer = state_answer(depth, MOST_DEPTH);
    if answer.is_ok() {
        delays.fill(0.0);
    }
    answer
}

#[tactic(auto, unfolding(refusal::specs::Rows::outside))]
impl HbfIntCascade {
    // The state that a caller in C is given of a refused opening.
    pub fn zeros() -> HbfIntCascade
        ensures { result ≡ int_cascade_fresh 0 }
    {
        HbfIntCascade {
            depth: 0,
            delays: [0.0; INT_CASCADE_DELAYS],
        }
    }

    // A cascade of so many stages. Refusal 11: not 1 to 5.
    pub fn new(depth: usize) -> Result<HbfIntCascade, Refusal>
        ensures answer { told_opened (int_cascade_fresh 0) result ≡ int_cascade_opening depth }
        ensures meets { IfOk result (IntCascadeMeets depth) }
    {
        if outside(depth, 1, MOST_DEPTH) {
            return Err(Refusal::Depth);
        }
        Ok(HbfIntCascade {
            depth,
            delays: [0.0; INT_CASCADE_DELAYS],
        })
    }

    // The samples of src, as many as dst has 2^depth places for. Refusals 15, 7.
    pub fn process(&mut self, src: &[f32], dst: &mut [f32]) -> Result<usize, Refusal>
        ensures answer { told_on 0 result self.new ≡ int_cascade_block self.old src.now (length dst.old) }
        ensures span { dst.new ≡ int_cascade_span self.old src.now dst.old }
    {
        samples_lent(self.depth, &mut self.delays, src, dst)
    }

    // A fresh opening of the same depth. Refusal 15.
    pub fn reset(&mut self) -> Result<(), Refusal>
        ensures answer { told_reset result self.new ≡ int_cascade_reset self.old }
    {
        reset_lent(self.depth, &mut self.delays)
    }
}
