// `HbfIntCascade`: depth, delays.
ghost use Rattle.std.specs.Prelude.{◌≡◌, length};
ghost use Rattle.half_band.specs.HbfIntCascade.{int_cascade_opening, int_cascade_reset, int_cascade_block, int_cascade_span, IntCascadeMeets};
ghost use Rattle.gauge_line.specs.States.{entry, exit, int_cascade_at};

use crate::answers::number;
use crate::states::put_cascade;
use half_band::hbf_int_cascade::{reset_lent, samples_lent};
use half_band::{HbfIntCascade, INT_CASCADE_DELAYS};

#[unsafe(no_mangle)]
pub extern "C" fn gauge_raw_hbf_int_cascade_new(
    wanted_depth: usize,
    depth: &mut usize,
    delays: &mut [f32; INT_CASCADE_DELAYS],
) -> usize
    ensures answer { record { number = result; state = int_cascade_at exit depth delays } ≡ int_cascade_opening wanted_depth }
    ensures meets { result ≡ 0 → IntCascadeMeets wanted_depth (int_cascade_at exit depth delays) }
{
    let opened = HbfIntCascade::new(wanted_depth);
    let told = number(&opened);
    let state = opened.unwrap_or(HbfIntCascade::zeros());
    put_cascade(state.depth, &state.delays, depth, delays);
    told
}

#[unsafe(no_mangle)]
pub extern "C" fn gauge_raw_hbf_int_cascade_reset(
    depth: &mut usize,
    delays: &mut [f32; INT_CASCADE_DELAYS],
) -> usize
    ensures answer { record { number = result; state = int_cascade_at exit depth delays } ≡ int_cascade_reset (int_cascade_at entry depth delays) }
{
    let answer = reset_lent(*depth, delays);
    number(&answer)
}

#[unsafe(no_mangle)]
pub extern "C" fn gauge_raw_hbf_int_cascade_process(
    depth: &mut usize,
    delays: &mut [f32; INT_CASCADE_DELAYS],
    src: &[f32],
    dst: &mut [f32],
    written: &mut usize,
) -> usize
    ensures answer { let before = int_cascade_at entry depth delays in
        let after = int_cascade_at exit depth delays in
        record { number = result; value = written.new; state = after } ≡ int_cascade_block before src.now (length dst.old) }
    ensures span { dst.new ≡ int_cascade_span (int_cascade_at entry depth delays) src.now dst.old }
{
    let answer = samples_lent(*depth, delays, src, dst);
    *written = answer.unwrap_or(0);
    number(&answer)
}
