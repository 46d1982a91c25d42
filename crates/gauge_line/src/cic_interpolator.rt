// `CicInterpolator`: stages, r, combs, integrators.
ghost use Rattle.std.specs.Prelude.{◌≡◌, ◌-◌, length};
ghost use Rattle.refusal.specs.declared.Moved.{Moved};
ghost use Rattle.integer.specs.Opening.{opening, on_state};
ghost use Rattle.integer.specs.Gain.{gain_of, gain_bits, Least};
ghost use Rattle.integer.specs.CicInterpolator as I;
ghost use Rattle.gauge_line.specs.States.{entry, exit, interpolator_at};

use crate::answers::number;
use crate::states::{interpolator, put_interpolator};
use integer::CicInterpolator;
use integer::cic_interpolator::{block_at, sample_at};
use integer::limits::MOST_STAGES;
use refusal::NONE_MOVED;

#[unsafe(no_mangle)]
pub extern "C" fn gauge_raw_cic_interpolator_new(
    wanted_stages: usize,
    wanted_r: usize,
    stages: &mut usize,
    r: &mut usize,
    combs: &mut [i32; MOST_STAGES],
    integrators: &mut [i32; MOST_STAGES],
) -> usize
    ensures answer { record { number = result; state = interpolator_at exit stages r combs integrators } ≡ opening I.fresh wanted_stages wanted_r }
    ensures stream { result ≡ 0 → I.Streams wanted_stages wanted_r (interpolator_at exit stages r combs integrators) }
{
    let opened = CicInterpolator::new(wanted_stages, wanted_r);
    let told = number(&opened);
    let state = opened.unwrap_or(CicInterpolator::fresh(0, 0));
    put_interpolator(&state, stages, r, combs, integrators);
    told
}

#[unsafe(no_mangle)]
pub extern "C" fn gauge_raw_cic_interpolator_gain(
    stages: usize,
    r: usize,
    combs: &[i32; MOST_STAGES],
    integrators: &[i32; MOST_STAGES],
    gain: &mut u64,
) -> usize
    ensures answer { record { number = result; value = gain.new } ≡ on_state (I.valid_at stages r) (gain_of (stages - 1) r) }
{
    let state = interpolator(stages, r, *combs, *integrators);
    let answer = state.gain();
    *gain = answer.unwrap_or(0);
    number(&answer)
}

#[unsafe(no_mangle)]
pub extern "C" fn gauge_raw_cic_interpolator_gain_bits(
    stages: usize,
    r: usize,
    combs: &[i32; MOST_STAGES],
    integrators: &[i32; MOST_STAGES],
    bits: &mut u32,
) -> usize
    ensures answer { record { number = result; value = bits.new } ≡ on_state (I.valid_at stages r) (gain_bits (stages - 1) r) }
    ensures least { result ≡ 0 → Least (gain_of (stages - 1) r) bits.new }
{
    let state = interpolator(stages, r, *combs, *integrators);
    let answer = state.gain_bits();
    *bits = answer.unwrap_or(0);
    number(&answer)
}

#[unsafe(no_mangle)]
pub extern "C" fn gauge_raw_cic_interpolator_process_sample(
    stages: &mut usize,
    r: &mut usize,
    combs: &mut [i32; MOST_STAGES],
    integrators: &mut [i32; MOST_STAGES],
    input: i32,
    out_buf: &mut [i32],
    written: &mut usize,
) -> usize
    ensures answer { let before = interpolator_at entry stages r combs integrators in
        let after = interpolator_at exit stages r combs integrators in
        record { number = result; value = written.new; state = after } ≡ I.sample before input out_buf.old }
    ensures span { out_buf.new ≡ I.sample_span (interpolator_at entry stages r combs integrators) input out_buf.old }
{
    let answer = sample_at(*stages, *r, combs, integrators, input, out_buf);
    *written = answer.unwrap_or(0);
    number(&answer)
}

#[unsafe(no_mangle)]
pub extern "C" fn gauge_raw_cic_interpolator_process_block(
    stages: &mut usize,
    r: &mut usize,
    combs: &mut [i32; MOST_STAGES],
    integrators: &mut [i32; MOST_STAGES],
    src: &[i32],
    dst: &mut [i32],
    taken: &mut usize,
    written: &mut usize,
) -> usize
    ensures answer { (
        let before = interpolator_at entry stages r combs integrators in
        let after = interpolator_at exit stages r combs integrators in
        let moved : Moved = record { taken = taken.exit.now; written = written.new } in
        record { number = result; value = moved; state = after } ≡ I.block before src.now (length dst.old)) }
    ensures span { dst.new ≡ I.block_span (interpolator_at entry stages r combs integrators) src.now dst.old }
{
    let answer = block_at(*stages, *r, combs, integrators, src, dst);
    let moved = answer.unwrap_or(NONE_MOVED);
    *taken = moved.taken;
    *written = moved.written;
    number(&answer)
}
