// `CicDecimator`: stages, r, integrators, combs, sample_counter.
ghost use Rattle.std.specs.Prelude.{◌≡◌, pos, length};
ghost use Rattle.theory.specs.Sections.{outs};
ghost use Rattle.refusal.specs.declared.Moved.{Moved};
ghost use Rattle.integer.specs.Opening.{opening, on_state};
ghost use Rattle.integer.specs.Gain.{gain_of, gain_bits, Least};
ghost use Rattle.integer.specs.declared.exact_range.Ends.{Ends};
ghost use Rattle.integer.specs.ExactSums.{ExactSums, ExactWithin, exact_range};
ghost use Rattle.integer.specs.CicDecimator as D;
ghost use Rattle.gauge_line.specs.Crossing.{crossed};
ghost use Rattle.gauge_line.specs.States.{entry, exit, decimator_at};

use crate::answers::{self, number, output};
use crate::states::{decimator, put_decimator};
use integer::CicDecimator;
use integer::cic_decimator::{block_at, sample_lent, scaled_sample_lent};
use integer::exact_range::Ends;
use integer::limits::MOST_STAGES;
use refusal::NONE_MOVED;

// The ends that a refused range tells.
const NO_ENDS: Ends = Ends {
    least: 0,
    greatest: 0,
};

#[unsafe(no_mangle)]
pub extern "C" fn gauge_raw_cic_decimator_new(
    wanted_stages: usize,
    wanted_r: usize,
    stages: &mut usize,
    r: &mut usize,
    integrators: &mut [i32; MOST_STAGES],
    combs: &mut [i32; MOST_STAGES],
    sample_counter: &mut usize,
) -> usize
    ensures answer { record { number = result; state = decimator_at exit stages r integrators combs sample_counter } ≡ opening D.fresh wanted_stages wanted_r }
    ensures stream { result ≡ 0 → D.Streams wanted_stages wanted_r (decimator_at exit stages r integrators combs sample_counter) }
    ensures exact { result ≡ 0 → (
        let opened = decimator_at exit stages r integrators combs sample_counter in
        ExactSums wanted_stages wanted_r (outs D.decimator opened) (outs D.scaled_decimator opened)) }
{
    let opened = CicDecimator::new(wanted_stages, wanted_r);
    let told = number(&opened);
    let state = opened.unwrap_or(CicDecimator::fresh(0, 0));
    put_decimator(&state, stages, r, integrators, combs, sample_counter);
    told
}

#[unsafe(no_mangle)]
pub extern "C" fn gauge_raw_cic_decimator_gain(
    stages: usize,
    r: usize,
    integrators: &[i32; MOST_STAGES],
    combs: &[i32; MOST_STAGES],
    sample_counter: usize,
    gain: &mut u64,
) -> usize
    ensures answer { record { number = result; value = gain.new } ≡ on_state (D.valid_at stages r sample_counter) (gain_of stages r) }
{
    let state = decimator(stages, r, *integrators, *combs, sample_counter);
    let answer = state.gain();
    *gain = answer.unwrap_or(0);
    number(&answer)
}

#[unsafe(no_mangle)]
pub extern "C" fn gauge_raw_cic_decimator_gain_bits(
    stages: usize,
    r: usize,
    integrators: &[i32; MOST_STAGES],
    combs: &[i32; MOST_STAGES],
    sample_counter: usize,
    bits: &mut u32,
) -> usize
    ensures answer { record { number = result; value = bits.new } ≡ on_state (D.valid_at stages r sample_counter) (gain_bits stages r) }
    ensures least { result ≡ 0 → Least (gain_of stages r) bits.new }
{
    let state = decimator(stages, r, *integrators, *combs, sample_counter);
    let answer = state.gain_bits();
    *bits = answer.unwrap_or(0);
    number(&answer)
}

// The samples of which every sum is exact.
#[unsafe(no_mangle)]
pub extern "C" fn gauge_raw_cic_decimator_exact_range(
    stages: usize,
    r: usize,
    integrators: &[i32; MOST_STAGES],
    combs: &[i32; MOST_STAGES],
    sample_counter: usize,
    least: &mut i32,
    greatest: &mut i32,
) -> usize
    ensures answer { (
        let ends : Ends = record { least = least.exit.now; greatest = greatest.new } in
        record { number = result; value = ends } ≡ exact_range (D.valid_at stages r sample_counter) stages r) }
    ensures exact { result ≡ 0 → (
        let opened = D.fresh stages r in
        ExactWithin least.new greatest.new stages r (outs D.decimator opened) (outs D.scaled_decimator opened)) }
{
    let state = decimator(stages, r, *integrators, *combs, sample_counter);
    let answer = state.exact_range();
    let ends = answer.unwrap_or(NO_ENDS);
    *least = ends.least;
    *greatest = ends.greatest;
    number(&answer)
}

#[unsafe(no_mangle)]
pub extern "C" fn gauge_raw_cic_decimator_process_sample(
    stages: &mut usize,
    r: &mut usize,
    integrators: &mut [i32; MOST_STAGES],
    combs: &mut [i32; MOST_STAGES],
    sample_counter: &mut usize,
    input: i32,
    made: &mut usize,
    sum: &mut i32,
) -> usize
    ensures answer { let before = decimator_at entry stages r integrators combs sample_counter in
        let after = decimator_at exit stages r integrators combs sample_counter in
        record { number = result; value = (made.new, sum.new); state = after } ≡ crossed (pos 0) (D.step before input) }
{
    let answer = sample_lent(*stages, *r, sample_counter, integrators, combs, input);
    let told = number(&answer);
    let next_sum = output(answer);
    *made = answers::made(&next_sum);
    *sum = next_sum.unwrap_or(0);
    told
}

#[unsafe(no_mangle)]
pub extern "C" fn gauge_raw_cic_decimator_process_sample_scaled(
    stages: &mut usize,
    r: &mut usize,
    integrators: &mut [i32; MOST_STAGES],
    combs: &mut [i32; MOST_STAGES],
    sample_counter: &mut usize,
    input: i32,
    made: &mut usize,
    sum: &mut i32,
) -> usize
    ensures answer { let before = decimator_at entry stages r integrators combs sample_counter in
        let after = decimator_at exit stages r integrators combs sample_counter in
        record { number = result; value = (made.new, sum.new); state = after } ≡ crossed (pos 0) (D.scaled_step before input) }
{
    let answer = scaled_sample_lent(*stages, *r, sample_counter, integrators, combs, input);
    let told = number(&answer);
    let next_sum = output(answer);
    *made = answers::made(&next_sum);
    *sum = next_sum.unwrap_or(0);
    told
}

#[unsafe(no_mangle)]
pub extern "C" fn gauge_raw_cic_decimator_process_block(
    stages: &mut usize,
    r: &mut usize,
    integrators: &mut [i32; MOST_STAGES],
    combs: &mut [i32; MOST_STAGES],
    sample_counter: &mut usize,
    src: &[i32],
    dst: &mut [i32],
    taken: &mut usize,
    written: &mut usize,
) -> usize
    ensures answer { (
        let before = decimator_at entry stages r integrators combs sample_counter in
        let after = decimator_at exit stages r integrators combs sample_counter in
        let moved : Moved = record { taken = taken.exit.now; written = written.new } in
        record { number = result; value = moved; state = after } ≡ D.block before src.now (length dst.old)) }
    ensures span { dst.new ≡ D.block_span (decimator_at entry stages r integrators combs sample_counter) src.now dst.old }
{
    let answer = block_at(*stages, *r, sample_counter, integrators, combs, src, dst);
    let moved = answer.unwrap_or(NONE_MOVED);
    *taken = moved.taken;
    *written = moved.written;
    number(&answer)
}
