// `LinearPhaseFir`: m, odd, antisymmetric, taps, delay. The kind is two numbers, 0 for no and any other for yes, which a call on a state leaves as they are lent.
ghost use Rattle.std.specs.Prelude.{◌≡◌, length};
ghost use Rattle.linear_phase.specs.LinearPhaseFir as P;
ghost use Rattle.gauge_line.specs.Crossing.{is_set, flag_of};
ghost use Rattle.gauge_line.specs.States.{entry, exit, phase_at};

use crate::answers::number;
use crate::states::{flag, is_set, phase};
use linear_phase::linear_phase_fir::{block_at, inplace_at, open_at, process_at, reset_at};
use linear_phase::{Kind, LINEAR_PHASE_DELAYS, MOST_LINEAR_PHASE_TAPS};

// The kind as it was lent.
fn kind(odd: usize, antisymmetric: usize) -> Kind
    ensures { result ≡ record { odd = is_set odd; antisymmetric = is_set antisymmetric } }
{
    Kind {
        odd: is_set(odd),
        antisymmetric: is_set(antisymmetric),
    }
}

#[unsafe(no_mangle)]
pub extern "C" fn gauge_raw_linear_phase_fir_new(
    wanted_odd: usize,
    wanted_antisymmetric: usize,
    wanted_taps: &[f32],
    m: &mut usize,
    odd: &mut usize,
    antisymmetric: &mut usize,
    taps: &mut [f32; MOST_LINEAR_PHASE_TAPS],
    delay: &mut [f32; LINEAR_PHASE_DELAYS],
) -> usize
    ensures answer { let after = phase_at exit m odd antisymmetric taps delay in
        record { number = result; state = after } ≡ P.phase_opening (is_set wanted_odd) (is_set wanted_antisymmetric) wanted_taps.now }
    ensures streams { result ≡ 0
        → P.PhaseStreams (is_set wanted_odd) (is_set wanted_antisymmetric) wanted_taps.now (phase_at exit m odd antisymmetric taps delay) }
    ensures kind { let opened = P.phase_opening (is_set wanted_odd) (is_set wanted_antisymmetric) wanted_taps.now in
        (odd.new ≡ flag_of opened.state.odd) × (antisymmetric.new ≡ flag_of opened.state.antisymmetric) }
{
    let mut opened = kind(wanted_odd, wanted_antisymmetric);
    let answer = open_at(&mut opened, wanted_taps, m, taps, delay);
    *odd = flag(opened.odd);
    *antisymmetric = flag(opened.antisymmetric);
    number(&answer)
}

#[unsafe(no_mangle)]
pub extern "C" fn gauge_raw_linear_phase_fir_reset(
    m: &mut usize,
    odd: &mut usize,
    antisymmetric: &mut usize,
    taps: &mut [f32; MOST_LINEAR_PHASE_TAPS],
    delay: &mut [f32; LINEAR_PHASE_DELAYS],
) -> usize
    ensures answer { let before = phase_at entry m odd antisymmetric taps delay in
        let after = phase_at exit m odd antisymmetric taps delay in
        record { number = result; state = after } ≡ P.phase_reset before }
    ensures kind { (odd.new ≡ odd.old) × (antisymmetric.new ≡ antisymmetric.old) }
{
    let answer = reset_at(*m, kind(*odd, *antisymmetric), taps, delay);
    number(&answer)
}

#[unsafe(no_mangle)]
pub extern "C" fn gauge_raw_linear_phase_fir_response_length(
    m: usize,
    odd: usize,
    antisymmetric: usize,
    taps: &[f32; MOST_LINEAR_PHASE_TAPS],
    delay: &[f32; LINEAR_PHASE_DELAYS],
    length: &mut usize,
) -> usize
    ensures answer { let state = P.phase_of m (is_set odd) (is_set antisymmetric) taps.now delay.now in
        record { number = result; value = length.new } ≡ P.phase_response_length state }
{
    let state = phase(m, kind(odd, antisymmetric), *taps, *delay);
    let answer = state.response_length();
    *length = answer.unwrap_or(0);
    number(&answer)
}

#[unsafe(no_mangle)]
pub extern "C" fn gauge_raw_linear_phase_fir_process(
    m: &mut usize,
    odd: &mut usize,
    antisymmetric: &mut usize,
    taps: &mut [f32; MOST_LINEAR_PHASE_TAPS],
    delay: &mut [f32; LINEAR_PHASE_DELAYS],
    x: f32,
    value: &mut f32,
) -> usize
    ensures answer { let before = phase_at entry m odd antisymmetric taps delay in
        let after = phase_at exit m odd antisymmetric taps delay in
        record { number = result; value = value.new; state = after } ≡ P.phase_step before x }
    ensures kind { (odd.new ≡ odd.old) × (antisymmetric.new ≡ antisymmetric.old) }
{
    let answer = process_at(*m, kind(*odd, *antisymmetric), taps, delay, x);
    *value = answer.unwrap_or(0.0);
    number(&answer)
}

#[unsafe(no_mangle)]
pub extern "C" fn gauge_raw_linear_phase_fir_block(
    m: &mut usize,
    odd: &mut usize,
    antisymmetric: &mut usize,
    taps: &mut [f32; MOST_LINEAR_PHASE_TAPS],
    delay: &mut [f32; LINEAR_PHASE_DELAYS],
    src: &[f32],
    span: &mut [f32],
    written: &mut usize,
) -> usize
    ensures answer { let before = phase_at entry m odd antisymmetric taps delay in
        let after = phase_at exit m odd antisymmetric taps delay in
        record { number = result; value = written.new; state = after } ≡ P.phase_block before src.now (length span.old) }
    ensures span { span.new ≡ P.phase_span (phase_at entry m odd antisymmetric taps delay) src.now span.old }
    ensures kind { (odd.new ≡ odd.old) × (antisymmetric.new ≡ antisymmetric.old) }
{
    let answer = block_at(*m, kind(*odd, *antisymmetric), taps, delay, src, span);
    *written = answer.unwrap_or(0);
    number(&answer)
}

#[unsafe(no_mangle)]
pub extern "C" fn gauge_raw_linear_phase_fir_inplace(
    m: &mut usize,
    odd: &mut usize,
    antisymmetric: &mut usize,
    taps: &mut [f32; MOST_LINEAR_PHASE_TAPS],
    delay: &mut [f32; LINEAR_PHASE_DELAYS],
    span: &mut [f32],
    written: &mut usize,
) -> usize
    ensures answer { let before = phase_at entry m odd antisymmetric taps delay in
        let after = phase_at exit m odd antisymmetric taps delay in
        record { number = result; value = written.new; state = after } ≡ P.phase_inplace before span.old }
    ensures span { span.new ≡ P.phase_inplace_span (phase_at entry m odd antisymmetric taps delay) span.old }
    ensures kind { (odd.new ≡ odd.old) × (antisymmetric.new ≡ antisymmetric.old) }
{
    let answer = inplace_at(*m, kind(*odd, *antisymmetric), taps, delay, span);
    *written = answer.unwrap_or(0);
    number(&answer)
}
