// 01, section 4, in the line: the half-band cascade fed sample by sample. A stage holds an odd sample until its partner comes.
ghost use Rattle.std.specs.Prelude.{◌≡◌, ◌*◌, ◌<◌, [], ◌∷◌, length, take, drop, IfOk, None};
ghost use Rattle.refusal.specs.Outcome.{told_on, told_opened, told_reset};
ghost use Rattle.half_band.specs.HbfTaps.{stage_taps};
ghost use Rattle.half_band.specs.Windows.{slid, dec_value, spliced};
ghost use Rattle.half_band.specs.HbfStream.{stream_of, stream_fresh, hbf_stream, stream_opening, stream_reset, stream_step, stream_refused, stream_refused_in_line, StreamMeets};

use crate::half_band::take_pair;
use crate::hbf_taps::{Db140, StageTable, stage_at};
use crate::limits::{DEC_CASCADE_DELAYS, MOST_DEPTH};
use refusal::Refusal;
use refusal::rows::outside;

// Stage k has its last 4M samples in front of the 96 delays from 96k on, and holds counts[k] samples, none or one, in held[k]. Two arrays, not one of options: so the state
// that C holds has them, whose counts may be any. The leaves below are lent the arrays one by one, as C and a line (`Arrays`) have them.
#[derive(Clone, Copy)]
pub struct HbfStream {
    pub depth: usize,
    pub delays: [f32; DEC_CASCADE_DELAYS],
    pub held: [f32; MOST_DEPTH],
    pub counts: [usize; MOST_DEPTH],
}

// A pair into stage k.
fn stage_pair<T: StageTable>(
    k: usize,
    delays: &mut [f32; DEC_CASCADE_DELAYS],
    a: f32,
    b: f32,
) -> f32
    requires { k < 5 }
    ensures { let taps = stage_taps T.table k in
        let window = slid (take (4 * length taps) (drop (96 * k) delays.old)) (a ∷ b ∷ []) in
        (delays.new ≡ spliced (96 * k) (4 * length taps) window delays.old) × (result ≡ dec_value taps window) }
{
    let (taps, window) = stage_at::<T>(k, 4);
    take_pair(&mut delays[window], taps, a, b)
}

// A sample into the first `depth` stages, or all five: held at a stage, or made into an output by all. A leaf for the line, which has looked at the numbers and
// lends the arrays, so that nothing is copied: it refuses nothing.
#[inline(always)]
pub fn hbf_stream_at(
    depth: usize,
    delays: &mut [f32; DEC_CASCADE_DELAYS],
    held: &mut [f32; MOST_DEPTH],
    counts: &mut [usize; MOST_DEPTH],
    x: f32,
) -> Option<f32>
    ensures out { result ≡ hbf_stream.out (stream_of depth delays.old held.old counts.old) x }
    ensures next { stream_of depth delays.new held.new counts.new ≡ hbf_stream.next (stream_of depth delays.old held.old counts.old) x }
{
    let mut v = x;
    // By the number: the count, the held sample, the window and the taps of a stage go by it.
    for i in 0..depth.min(MOST_DEPTH) as u32 {
        let k = i as usize;
        if counts[k] == 0 {
            held[k] = v;
            counts[k] = 1;
            return None;
        }
        let partner = held[k];
        held[k] = 0.0;
        counts[k] = 0;
        v = stage_pair::<Db140>(k, delays, partner, v);
    }
    Some(v)
}

// Refusal 15 of a state: no stages or too many, or more than one held sample at a stage that is run.
#[tactic(auto, unfolding(refusal::specs::Rows::outside))]
fn hbf_stream_refused(depth: usize, counts: &[usize; MOST_DEPTH]) -> bool
    ensures { result ≡ stream_refused depth counts.now }
{
    outside(depth, 1, MOST_DEPTH) || counts[..depth].iter().any(|count| 1 < *count)
}

// Refusal 15 of a state in the line, where no stages means off.
#[tactic(auto, unfolding(crate::specs::HbfStream::stream_refused_in_line))]
pub fn hbf_stream_refused_in_line(depth: usize, counts: &[usize; MOST_DEPTH]) -> bool
    ensures { result ≡ stream_refused_in_line depth counts.now }
{
    depth != 0 && hbf_stream_refused(depth, counts)
}

// `HbfStream::process_sample` for the C function, which is lent the state's arrays: a sample does not pay for moving them.
pub fn sample_lent(
    depth: usize,
    delays: &mut [f32; DEC_CASCADE_DELAYS],
    held: &mut [f32; MOST_DEPTH],
    counts: &mut [usize; MOST_DEPTH],
    x: f32,
) -> Result<Option<f32>, Refusal>
    ensures answer { told_on None result (stream_of depth delays.new held.new counts.new) ≡ stream_step (stream_of depth delays.old held.old counts.old) x }
{
    if hbf_stream_refused(depth, counts) {
        return Err(Refusal::State);
    }
    Ok(hbf_stream_at(depth, delays, held, counts, x))
}

// `HbfStream::reset`, of the fields lent: only zeros are written. Refusal 15.
pub fn reset_lent(
    depth: usize,
    delays: &mut [f32; DEC_CASCADE_DELAYS],
    held: &mut [f32; MOST_DEPTH],
    counts: &mut [usize; MOST_DEPTH],
) -> Result<(), Refusal>
    ensures answer { told_reset result (stream_of depth delays.new held.new counts.new) ≡ stream_reset (stream_of depth delays.old held.old counts.old) }
{
    let refused = hbf_stream_refused(depth, counts);
    if refused {
        return Err(Refusal::State);
    }
    delays.fill(0.0);
    held.fill(0.0);
    counts.fill(0);
    Ok(())
}

impl HbfStream {
    // A cascade that has taken nothing in yet, of no stages where it stands in a line without one.
    pub fn fresh(depth: usize) -> HbfStream
        ensures { result ≡ stream_fresh depth }
    {
        HbfStream {
            depth,
            delays: [0.0; DEC_CASCADE_DELAYS],
            held: [0.0; MOST_DEPTH],
            counts: [0; MOST_DEPTH],
        }
    }

    // A cascade of so many stages. Refusal 11: none, or over five.
    pub fn new(depth: usize) -> Result<HbfStream, Refusal>
        ensures answer { told_opened (stream_fresh 0) result ≡ stream_opening depth }
        ensures meets { IfOk result (StreamMeets depth) }
    {
        if outside(depth, 1, MOST_DEPTH) {
            return Err(Refusal::Depth);
        }
        Ok(HbfStream::fresh(depth))
    }

    // One sample. Refusal 15.
    pub fn process_sample(&mut self, x: f32) -> Result<Option<f32>, Refusal>
        ensures answer { told_on None result self.new ≡ stream_step self.old x }
    {
        let depth = self.depth;
        sample_lent(depth, &mut self.delays, &mut self.held, &mut self.counts, x)
    }

    // A fresh opening of the same depth. Refusal 15.
    pub fn reset(&mut self) -> Result<(), Refusal>
        ensures answer { told_reset result self.new ≡ stream_reset self.old }
    {
        let depth = self.depth;
        reset_lent(depth, &mut self.delays, &mut self.held, &mut self.counts)
    }
}
