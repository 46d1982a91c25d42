// 01, section 4, and 02, §11: blocks through a cascade of half-band decimators, one output of each 2^depth samples. The samples are put at the end of a tape, as many
// whole frames of 2^depth as a chunk has, and each stage turns the list there into half as many values in place: nothing is held at the end of whole frames.
ghost use Rattle.std.specs.Prelude.{◌≡◌, ◌+◌, ◌-◌, ◌*◌, ◌/◌, ◌^◌, ◌≤◌, ◌<◌, length, take, drop, replicate, IfOk};
ghost use Rattle.theory.specs.Sections.{onto, state, outs};
ghost use Rattle.refusal.specs.Outcome.{told_on, told_reset};
ghost use Rattle.float.specs.F32.{zero32};
ghost use Rattle.half_band.specs.HbfTaps.{stage_taps};
ghost use Rattle.half_band.specs.Windows.{pairs, spliced};
ghost use Rattle.half_band.specs.inner.Decimator.{decimator};
ghost use Rattle.half_band.specs.HbfStream.{stream, stream_of};
ghost use Rattle.half_band.specs.HbfDecCascade.{cascade_of, told_cascade, dec_cascade_fresh, dec_cascade_opening, dec_cascade_reset, block_by, span_by, MeetsBy};

use crate::hbf_taps::{Db98, Db140, StageTable, stage_at};
use crate::in_place::decimate_at_end;
use crate::limits::{DEC_CASCADE_DELAYS, DEC_DELAYS, MOST_DEPTH, rate_change, state_answer};
use refusal::Refusal;
use refusal::rows::{outside, samples_refused};
use std::marker::PhantomData;

// A cascade over the taps of a table. Stage k has its last 4M samples in front of the 96 delays from 96k on.
#[derive(Clone, Copy)]
pub struct DecCascade<T> {
    pub depth: usize,
    pub delays: [f32; DEC_CASCADE_DELAYS],
    pub table: PhantomData<T>,
}

pub type HbfDecCascade = DecCascade<Db140>;

pub type HbfDecCascade98 = DecCascade<Db98>;

// The most samples of a chunk, three frames of the deepest cascade, and places in front of them for the longest window.
const CHUNK: usize = 96;

const TAPE: usize = DEC_DELAYS + CHUNK;

// The lead and the last n values of a tape go through stage k, and their outputs stand at its end. That k is below 5 stands in five contracts of one stage: a type
// for it would be made at each turn of the loops that call them.
pub(crate) fn decimate_stage<T: StageTable>(
    k: usize,
    delays: &mut [f32; DEC_CASCADE_DELAYS],
    lead: Option<f32>,
    tape: &mut [f32],
    n: usize,
)
    requires { (k < 5) × (n + 96 ≤ length tape.old) }
    ensures { let taps = stage_taps T.table k in
        let window = take (4 * length taps) (drop (96 * k) delays.old) in
        let led = onto lead (drop (length tape.old - n) tape.old) in
        let made = outs (decimator taps) window (pairs led) in
        (delays.new ≡ spliced (96 * k) (4 * length taps) (state (decimator taps) window (pairs led)) delays.old)
        × (drop (length tape.old - length made) tape.new ≡ made) }
{
    let (taps, window) = stage_at::<T>(k, 4);
    decimate_at_end(&mut delays[window], taps, lead, tape, n)
}

// The frames of src, at most a chunk, go through the stages on a tape, and an output of each fills dst. Nothing is held before them, so there is no lead.
fn decimate_on_tape<T: StageTable>(
    depth: usize,
    delays: &mut [f32; DEC_CASCADE_DELAYS],
    src: &[f32],
    dst: &mut [f32],
)
    requires { (depth ≤ 5) × (length src.now ≡ length dst.old * 2 ^ depth) × (length src.now ≤ 96) }
    ensures { let cascade = stream (stage_taps T.table) in
        let before = stream_of depth delays.old (replicate 5 zero32) (replicate 5 0) in
        let after = stream_of depth delays.new (replicate 5 zero32) (replicate 5 0) in
        (after ≡ state cascade before src.now) × (dst.new ≡ outs cascade before src.now) }
{
    let mut n = src.len();
    let mut tape = [0.0; TAPE];
    tape[TAPE - n..].copy_from_slice(src);
    for k in 0..depth {
        decimate_stage::<T>(k, delays, None, &mut tape, n);
        n /= 2;
    }
    dst.copy_from_slice(&tape[TAPE - n..]);
}

// The frames of src go through the stages, and an output of each fills dst.
fn decimate_frames<T: StageTable>(
    depth: usize,
    delays: &mut [f32; DEC_CASCADE_DELAYS],
    src: &[f32],
    dst: &mut [f32],
)
    requires { (depth ≤ 5) × (length src.now ≡ length dst.old * 2 ^ depth) × (length src.now ≤ 65536) }
    ensures { let cascade = stream (stage_taps T.table) in
        let before = stream_of depth delays.old (replicate 5 zero32) (replicate 5 0) in
        let after = stream_of depth delays.new (replicate 5 zero32) (replicate 5 0) in
        (after ≡ state cascade before src.now) × (dst.new ≡ outs cascade before src.now) }
{
    let factor = rate_change(depth);
    let most = CHUNK / factor;
    let frames = dst.len();
    let mut done = 0;
    // By hand: of what stands behind an iterator of `chunks_mut` a proof knows the length alone.
    while done < frames {
        let end = (done + most).min(frames);
        let from = done * factor;
        let past = end * factor;
        decimate_on_tape::<T>(depth, delays, &src[from..past], &mut dst[done..end]);
        done = end;
    }
}

// `DecCascade::process` for the C functions, which are lent the delays: a block does not pay for moving them.
#[tactic(auto, unfolding(refusal::specs::Rows::outside, refusal::specs::Rows::samples_refused), using(crate::proofs::DecCascades::frames_fit))]
pub fn frames_lent<T: StageTable>(
    depth: usize,
    delays: &mut [f32; DEC_CASCADE_DELAYS],
    src: &[f32],
    dst: &mut [f32],
) -> Result<usize, Refusal>
    ensures answer { let before = cascade_of depth delays.old in
        let after = cascade_of depth delays.new in
        told_on 0 result after ≡ block_by (stage_taps T.table) before src.now (length dst.old) }
    ensures span { dst.new ≡ span_by (stage_taps T.table) (cascade_of depth delays.old) src.now dst.old }
{
    state_answer(depth, MOST_DEPTH)?;
    if samples_refused(src.len(), dst.len()) {
        return Err(Refusal::Samples);
    }
    let factor = rate_change(depth);
    let frames = dst.len().min(src.len() / factor);
    let count = frames * factor;
    decimate_frames::<T>(depth, delays, &src[..count], &mut dst[..frames]);
    Ok(frames)
}

// `DecCascade::reset`, of the fields lent, over either table: only zeros are written. Refusal 15.
#[tactic(auto, unfolding(refusal::specs::Rows::outside))]
pub fn reset_lent(depth: usize, delays: &mut [f32; DEC_CASCADE_DELAYS]) -> Result<(), Refusal>
    ensures answer { told_reset result (cascade_of depth delays.new) ≡ dec_cascade_reset (cascade_of depth delays.old) }
{
    let answer = state_answer(depth, MOST_DEPTH);
    if answer.is_ok() {
        delays.fill(0.0);
    }
    answer
}

#[tactic(auto, unfolding(refusal::specs::Rows::outside, refusal::specs::Rows::samples_refused))]
impl<T: StageTable> DecCascade<T> {
    // The state that a caller in C is given of a refused opening.
    pub fn zeros() -> DecCascade<T>
        ensures { cascade_of result.depth result.delays ≡ dec_cascade_fresh 0 }
    {
        DecCascade {
            depth: 0,
            delays: [0.0; DEC_CASCADE_DELAYS],
            table: PhantomData,
        }
    }

    // A cascade of so many stages. Refusal 11: not 1 to 5.
    pub fn new(depth: usize) -> Result<DecCascade<T>, Refusal>
        ensures answer { told_cascade result ≡ dec_cascade_opening depth }
        ensures meets { IfOk result (λ s. MeetsBy (stage_taps T.table) depth (cascade_of s.depth s.delays)) }
    {
        if outside(depth, 1, MOST_DEPTH) {
            return Err(Refusal::Depth);
        }
        Ok(DecCascade {
            depth,
            delays: [0.0; DEC_CASCADE_DELAYS],
            table: PhantomData,
        })
    }

    // The whole frames of src, as many as dst has places; the rest is left unread. Refusals 15, 7.
    pub fn process(&mut self, src: &[f32], dst: &mut [f32]) -> Result<usize, Refusal>
        ensures answer { let before = cascade_of self.old.depth self.old.delays in
            let after = cascade_of self.new.depth self.new.delays in
            told_on 0 result after ≡ block_by (stage_taps T.table) before src.now (length dst.old) }
        ensures span { dst.new ≡ span_by (stage_taps T.table) (cascade_of self.old.depth self.old.delays) src.now dst.old }
    {
        frames_lent::<T>(self.depth, &mut self.delays, src, dst)
    }

    // A fresh opening of the same depth. Refusal 15.
    pub fn reset(&mut self) -> Result<(), Refusal>
        ensures answer { told_reset result (cascade_of self.new.depth self.new.delays) ≡ dec_cascade_reset (cascade_of self.old.depth self.old.delays) }
    {
        reset_lent(self.depth, &mut self.delays)
    }
}
