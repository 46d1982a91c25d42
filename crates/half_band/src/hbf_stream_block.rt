// A block of values through the half-band cascade of the line, stage by stage. A stage sees neither the windows nor the held samples of the others, so it may
// take in all values before the next one does.
ghost use Rattle.std.specs.Prelude.{◌≡◌, cond, ◌+◌, ◌-◌, ◌%◌, ◌≤◌, ◌<◌, eqb, length, drop};
ghost use Rattle.theory.specs.Sections.{state, outs};
ghost use Rattle.float.specs.F32.{zero32};
ghost use Rattle.half_band.specs.HbfStream.{stream_of, hbf_stream};
ghost use Rattle.half_band.specs.inner.HbfStreamBlock.{stream_block_state, stream_block_outs, stream_block_made, stage_after, stage_outs};

use crate::hbf_dec_cascade::decimate_stage;
use crate::hbf_taps::Db140;
use crate::limits::{DEC_CASCADE_DELAYS, DEC_DELAYS, MOST_DEPTH};

// The most values of a block.
pub const MOST_STREAM_BLOCK: usize = 192;

// Of so many samples, `last` the last of them, the one that is in no pair; 0.0 where all are.
fn odd_one(count: usize, last: f32) -> f32
    ensures { result ≡ cond (eqb (count % 2) 0) zero32 last }
{
    if count % 2 == 0 {
        return 0.0;
    }
    last
}

// The last n values of the tape go through stage k; what they make stands at its end, and how many that are is returned. The pairs are those of the held sample, if
// there is one, and the values.
fn stage_block(
    k: usize,
    delays: &mut [f32; DEC_CASCADE_DELAYS],
    held: &mut [f32; MOST_DEPTH],
    counts: &mut [usize; MOST_DEPTH],
    tape: &mut [f32],
    n: usize,
) -> usize
    requires { (k < 5) × (n + 96 ≤ length tape.old) }
    ensures next { let before = stream_of 0 delays.old held.old counts.old in
        let after = stream_of 0 delays.new held.new counts.new in
        after ≡ stage_after k before (drop (length tape.old - n) tape.old) }
    ensures outputs { let before = stream_of 0 delays.old held.old counts.old in
        let made = stage_outs k before (drop (length tape.old - n) tape.old) in
        (result ≡ length made) × (drop (length tape.old - result) tape.new ≡ made) }
{
    if n == 0 {
        return 0;
    }
    let before = counts[k].min(1);
    let lead = (before == 1).then_some(held[k]);
    let total = before + n;
    let half = total / 2;
    held[k] = odd_one(total, tape[tape.len() - 1]);
    counts[k] = total % 2;
    decimate_stage::<Db140>(k, delays, lead, tape, n);
    half
}

// The last n values of the tape go through the first `depth` stages, or all five.
fn stages_block(
    depth: usize,
    delays: &mut [f32; DEC_CASCADE_DELAYS],
    held: &mut [f32; MOST_DEPTH],
    counts: &mut [usize; MOST_DEPTH],
    tape: &mut [f32],
    n: usize,
) -> usize
    requires { n + 96 ≤ length tape.old }
    ensures next { let before = stream_of depth delays.old held.old counts.old in
        let after = stream_of depth delays.new held.new counts.new in
        after ≡ state hbf_stream before (drop (length tape.old - n) tape.old) }
    ensures outputs { let before = stream_of depth delays.old held.old counts.old in
        let made = outs hbf_stream before (drop (length tape.old - n) tape.old) in
        (result ≡ length made) × (drop (length tape.old - result) tape.new ≡ made) }
{
    let mut m = n;
    for k in 0..depth.min(MOST_DEPTH) {
        m = stage_block(k, delays, held, counts, tape, m);
    }
    m
}

// The last n values of the tape go through the first `depth` stages, or all five, each stage over all of them in place; what comes of them stands at the tape's end, and
// how many that are is returned. What lies before it is of no use. The stages put their windows before the values, so these have DEC_DELAYS places there; without
// them, or with over MOST_STREAM_BLOCK values, nothing is done. A leaf for the line, which has looked at the numbers: it refuses nothing.
pub fn hbf_stream_block_at(
    depth: usize,
    delays: &mut [f32; DEC_CASCADE_DELAYS],
    held: &mut [f32; MOST_DEPTH],
    counts: &mut [usize; MOST_DEPTH],
    tape: &mut [f32],
    n: usize,
) -> usize
    ensures next { let before = stream_of depth delays.old held.old counts.old in
        let after = stream_of depth delays.new held.new counts.new in
        n + 96 ≤ length tape.old → after ≡ stream_block_state before (drop (length tape.old - n) tape.old) }
    ensures made { let before = stream_of depth delays.old held.old counts.old in
        n + 96 ≤ length tape.old → result ≡ stream_block_made before (drop (length tape.old - n) tape.old) }
    ensures end { let before = stream_of depth delays.old held.old counts.old in
        n + 96 ≤ length tape.old → drop (length tape.old - result) tape.new ≡ stream_block_outs before (drop (length tape.old - n) tape.old) }
    ensures without_room { let before = stream_of depth delays.old held.old counts.old in
        let after = stream_of depth delays.new held.new counts.new in
        length tape.old < n + 96 → (result ≡ 0) × (after ≡ before) × (tape.new ≡ tape.old) }
{
    if tape.len() < DEC_DELAYS || tape.len() - DEC_DELAYS < n || MOST_STREAM_BLOCK < n {
        return 0;
    }
    stages_block(depth, delays, held, counts, tape, n)
}
