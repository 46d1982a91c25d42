// 01, section 4: the values of a block as levels, through the half-band stages.
ghost use Rattle.std.specs.Prelude.{◌≡◌, true, ◌++◌, map, ◌≤◌, length, drop};
ghost use Rattle.float.specs.Level.{level};
ghost use Rattle.float.specs.PolyphaseOpening.{valid_in_line};
ghost use Rattle.float.specs.PolyphaseResamp.{state_of};
ghost use Rattle.half_band.specs.HbfStream.{stream_of};
ghost use Rattle.chain.specs.Chain.{from_levels};
ghost use Rattle.chain.specs.inner.Parts.{levels_on};
ghost use Rattle.chain.specs.inner.Batched.{most_levels, most_sums, Whole, Batched};

use crate::resample::resample;
use float::q15_to_f32;
use float::settings::{MOST_CELLS, MOST_PHASE_TAPS, Setting};
use half_band::{DEC_CASCADE_DELAYS, DEC_DELAYS, MOST_DEPTH, hbf_stream_block_at};
use q15::Q15;

// The most levels of a tape: a block of more goes in two parts.
const MOST_LEVELS: usize = 64;

// The levels at the end of a tape, and the places before them that the half-band stages want.
const TAPE: usize = DEC_DELAYS + MOST_LEVELS;

// The values as levels, in front of a span.
fn put_levels(span: &mut [f32], values: &[i16])
    requires { length values.now ≤ length span.old }
    ensures { span.new ≡ map level values.now ++ drop (length values.now) span.old }
{
    // By the place's number, since of what stands behind `iter_mut` in a zip a proof knows the lengths alone.
    for (i, value) in values.iter().enumerate() {
        span[i] = q15_to_f32(Q15(*value));
    }
}

// So many values as a tape takes into the half-band stages, and what these make into the resampler. Answers how many places of the span are written. The tape stands in a frame of its own, which a
// feed of few samples does not carry; the arrays go one by one, since of references in memory the compiler does not know that they are none to the tape.
#[inline(never)]
fn part_in(
    depth: usize,
    setting: Setting,
    mu: &mut f32,
    delays: &mut [f32; DEC_CASCADE_DELAYS],
    held: &mut [f32; MOST_DEPTH],
    counts: &mut [usize; MOST_DEPTH],
    delay: &mut [f32; MOST_PHASE_TAPS],
    prototype: &[f32; MOST_CELLS],
    values: &[i16],
    out: &mut [f32],
) -> usize
    requires { length values.now ≤ most_levels }
    ensures within { result ≤ length out.old }
    ensures batched { let resampler = state_of setting mu.old delay.old prototype.now in
        let before = levels_on (stream_of depth delays.old held.old counts.old) resampler in
        let after = levels_on (stream_of depth delays.new held.new counts.new) (state_of setting mu.new delay.new prototype.now) in
        valid_in_line resampler ≡ true → Whole from_levels before values.now (length out.old)
        → Batched from_levels before values.now out.old out.new after result }
{
    let n = values.len();
    let mut tape = [0.0f32; TAPE];
    put_levels(&mut tape[TAPE - n..], values);
    let made = hbf_stream_block_at(depth, delays, held, counts, &mut tape, n);
    resample(setting, mu, delay, prototype, &tape[TAPE - made..], out)
}

// Values into the half-band stages, and what these make into the resampler, in two parts where a tape does not take them. Answers how many places of the span are written.
pub(crate) fn levels_in(
    depth: usize,
    setting: Setting,
    mu: &mut f32,
    delays: &mut [f32; DEC_CASCADE_DELAYS],
    held: &mut [f32; MOST_DEPTH],
    counts: &mut [usize; MOST_DEPTH],
    delay: &mut [f32; MOST_PHASE_TAPS],
    prototype: &[f32; MOST_CELLS],
    values: &[i16],
    out: &mut [f32],
) -> usize
    requires { length values.now ≤ most_sums }
    ensures within { result ≤ length out.old }
    ensures batched { let resampler = state_of setting mu.old delay.old prototype.now in
        let before = levels_on (stream_of depth delays.old held.old counts.old) resampler in
        let after = levels_on (stream_of depth delays.new held.new counts.new) (state_of setting mu.new delay.new prototype.now) in
        valid_in_line resampler ≡ true → Whole from_levels before values.now (length out.old)
        → Batched from_levels before values.now out.old out.new after result }
{
    let first = values.len().min(MOST_LEVELS);
    let begun = part_in(
        depth,
        setting,
        mu,
        delays,
        held,
        counts,
        delay,
        prototype,
        &values[..first],
        out,
    );
    if values.len() == first {
        return begun;
    }
    let rest = part_in(
        depth,
        setting,
        mu,
        delays,
        held,
        counts,
        delay,
        prototype,
        &values[first..],
        &mut out[begun..],
    );
    begun + rest
}
