// `HbfStream`: depth, delays, held, counts.
ghost use Rattle.std.specs.Prelude.{◌≡◌};
ghost use Rattle.float.specs.F32.{zero32};
ghost use Rattle.half_band.specs.HbfStream.{stream_opening, stream_reset, stream_step, StreamMeets};
ghost use Rattle.gauge_line.specs.Crossing.{crossed};
ghost use Rattle.gauge_line.specs.States.{entry, exit, stream_at};

use crate::answers::{self, number, output};
use crate::states::put_stream;
use half_band::hbf_stream::{reset_lent, sample_lent};
use half_band::{DEC_CASCADE_DELAYS, HbfStream, MOST_DEPTH};

#[unsafe(no_mangle)]
pub extern "C" fn gauge_raw_hbf_stream_new(
    wanted_depth: usize,
    depth: &mut usize,
    delays: &mut [f32; DEC_CASCADE_DELAYS],
    held: &mut [f32; MOST_DEPTH],
    counts: &mut [usize; MOST_DEPTH],
) -> usize
    ensures answer { record { number = result; state = stream_at exit depth delays held counts } ≡ stream_opening wanted_depth }
    ensures meets { result ≡ 0 → StreamMeets wanted_depth (stream_at exit depth delays held counts) }
{
    let opened = HbfStream::new(wanted_depth);
    let told = number(&opened);
    let state = opened.unwrap_or(HbfStream::fresh(0));
    put_stream(&state, depth, delays, held, counts);
    told
}

#[unsafe(no_mangle)]
pub extern "C" fn gauge_raw_hbf_stream_reset(
    depth: &mut usize,
    delays: &mut [f32; DEC_CASCADE_DELAYS],
    held: &mut [f32; MOST_DEPTH],
    counts: &mut [usize; MOST_DEPTH],
) -> usize
    ensures answer { record { number = result; state = stream_at exit depth delays held counts } ≡ stream_reset (stream_at entry depth delays held counts) }
{
    let answer = reset_lent(*depth, delays, held, counts);
    number(&answer)
}

#[unsafe(no_mangle)]
pub extern "C" fn gauge_raw_hbf_stream_process_sample(
    depth: &mut usize,
    delays: &mut [f32; DEC_CASCADE_DELAYS],
    held: &mut [f32; MOST_DEPTH],
    counts: &mut [usize; MOST_DEPTH],
    x: f32,
    made: &mut usize,
    value: &mut f32,
) -> usize
    ensures answer { let before = stream_at entry depth delays held counts in
        let after = stream_at exit depth delays held counts in
        record { number = result; value = (made.new, value.new); state = after } ≡ crossed zero32 (stream_step before x) }
{
    let answer = sample_lent(*depth, delays, held, counts, x);
    let told = number(&answer);
    let out = output(answer);
    *made = answers::made(&out);
    *value = out.unwrap_or(0.0);
    told
}
