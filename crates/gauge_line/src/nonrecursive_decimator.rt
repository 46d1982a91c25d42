// `NonrecursiveDecimator`: stages, r, neighbours, place.
ghost use Rattle.std.specs.Prelude.{◌≡◌, pos, length};
ghost use Rattle.theory.specs.Sections.{outs};
ghost use Rattle.refusal.specs.declared.Moved.{Moved};
ghost use Rattle.integer.specs.Opening.{on_state};
ghost use Rattle.integer.specs.Gain.{gain_of, gain_bits, Least};
ghost use Rattle.integer.specs.ExactSums.{ExactSums};
ghost use Rattle.nonrecursive.specs.NonrecursiveDecimator as D;
ghost use Rattle.gauge_line.specs.Crossing.{crossed};
ghost use Rattle.gauge_line.specs.States.{entry, exit, nonrecursive_at};

use crate::answers::{self, number, output};
use crate::states::{nonrecursive, put_nonrecursive};
use nonrecursive::NonrecursiveDecimator;
use nonrecursive::block::block_at;
use nonrecursive::nonrecursive_decimator::{MOST_NEIGHBOURS, sample_lent, scaled_sample_lent};
use refusal::NONE_MOVED;

#[unsafe(no_mangle)]
pub extern "C" fn gauge_raw_nonrecursive_decimator_new(
    wanted_stages: usize,
    wanted_r: usize,
    stages: &mut usize,
    r: &mut usize,
    neighbours: &mut [i32; MOST_NEIGHBOURS],
    place: &mut usize,
) -> usize
    ensures answer { record { number = result; state = nonrecursive_at exit stages r neighbours place } ≡ D.opening wanted_stages wanted_r }
    ensures stream { result ≡ 0 → D.Streams wanted_stages wanted_r (nonrecursive_at exit stages r neighbours place) }
    ensures exact { result ≡ 0 → (
        let opened = nonrecursive_at exit stages r neighbours place in
        ExactSums wanted_stages wanted_r (outs D.nonrecursive opened) (outs D.scaled_nonrecursive opened)) }
{
    let opened = NonrecursiveDecimator::new(wanted_stages, wanted_r);
    let told = number(&opened);
    let state = opened.unwrap_or(NonrecursiveDecimator::fresh(0, 0));
    put_nonrecursive(&state, stages, r, neighbours, place);
    told
}

#[unsafe(no_mangle)]
pub extern "C" fn gauge_raw_nonrecursive_decimator_gain(
    stages: usize,
    r: usize,
    neighbours: &[i32; MOST_NEIGHBOURS],
    place: usize,
    gain: &mut u64,
) -> usize
    ensures answer { record { number = result; value = gain.new } ≡ on_state (D.valid_at stages r place) (gain_of stages r) }
{
    let state = nonrecursive(stages, r, *neighbours, place);
    let answer = state.gain();
    *gain = answer.unwrap_or(0);
    number(&answer)
}

#[unsafe(no_mangle)]
pub extern "C" fn gauge_raw_nonrecursive_decimator_gain_bits(
    stages: usize,
    r: usize,
    neighbours: &[i32; MOST_NEIGHBOURS],
    place: usize,
    bits: &mut u32,
) -> usize
    ensures answer { record { number = result; value = bits.new } ≡ on_state (D.valid_at stages r place) (gain_bits stages r) }
    ensures least { result ≡ 0 → Least (gain_of stages r) bits.new }
{
    let state = nonrecursive(stages, r, *neighbours, place);
    let answer = state.gain_bits();
    *bits = answer.unwrap_or(0);
    number(&answer)
}

#[unsafe(no_mangle)]
pub extern "C" fn gauge_raw_nonrecursive_decimator_process_sample(
    stages: &mut usize,
    r: &mut usize,
    neighbours: &mut [i32; MOST_NEIGHBOURS],
    place: &mut usize,
    input: i32,
    made: &mut usize,
    sum: &mut i32,
) -> usize
    ensures answer { let before = nonrecursive_at entry stages r neighbours place in
        let after = nonrecursive_at exit stages r neighbours place in
        record { number = result; value = (made.new, sum.new); state = after } ≡ crossed (pos 0) (D.step before input) }
{
    let answer = sample_lent(*stages, *r, place, neighbours, input);
    let told = number(&answer);
    let next_sum = output(answer);
    *made = answers::made(&next_sum);
    *sum = next_sum.unwrap_or(0);
    told
}

#[unsafe(no_mangle)]
pub extern "C" fn gauge_raw_nonrecursive_decimator_process_sample_scaled(
    stages: &mut usize,
    r: &mut usize,
    neighbours: &mut [i32; MOST_NEIGHBOURS],
    place: &mut usize,
    input: i32,
    made: &mut usize,
    sum: &mut i32,
) -> usize
    ensures answer { let before = nonrecursive_at entry stages r neighbours place in
        let after = nonrecursive_at exit stages r neighbours place in
        record { number = result; value = (made.new, sum.new); state = after } ≡ crossed (pos 0) (D.scaled_step before input) }
{
    let answer = scaled_sample_lent(*stages, *r, place, neighbours, input);
    let told = number(&answer);
    let next_sum = output(answer);
    *made = answers::made(&next_sum);
    *sum = next_sum.unwrap_or(0);
    told
}

#[unsafe(no_mangle)]
pub extern "C" fn gauge_raw_nonrecursive_decimator_process_block(
    stages: &mut usize,
    r: &mut usize,
    neighbours: &mut [i32; MOST_NEIGHBOURS],
    place: &mut usize,
    src: &[i32],
    dst: &mut [i32],
    taken: &mut usize,
    written: &mut usize,
) -> usize
    ensures answer { (
        let before = nonrecursive_at entry stages r neighbours place in
        let after = nonrecursive_at exit stages r neighbours place in
        let moved : Moved = record { taken = taken.exit.now; written = written.new } in
        record { number = result; value = moved; state = after } ≡ D.block before src.now (length dst.old)) }
    ensures span { dst.new ≡ D.block_span (nonrecursive_at entry stages r neighbours place) src.now dst.old }
{
    let answer = block_at(*stages, *r, place, neighbours, src, dst);
    let moved = answer.unwrap_or(NONE_MOVED);
    *taken = moved.taken;
    *written = moved.written;
    number(&answer)
}
