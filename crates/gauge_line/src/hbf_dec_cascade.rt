// `HbfDecCascade`: depth, delays.
ghost use Rattle.std.specs.Prelude.{◌≡◌, length};
ghost use Rattle.half_band.specs.HbfDecCascade.{dec_cascade_opening, dec_cascade_reset, dec_cascade_block, dec_cascade_span, DecCascadeMeets};
ghost use Rattle.gauge_line.specs.States.{entry, exit, dec_cascade_at};

use crate::answers::number;
use crate::states::put_cascade;
use half_band::hbf_dec_cascade::{frames_lent, reset_lent};
use half_band::{DEC_CASCADE_DELAYS, Db140, HbfDecCascade};

#[unsafe(no_mangle)]
pub extern "C" fn gauge_raw_hbf_dec_cascade_new(
    wanted_depth: usize,
    depth: &mut usize,
    delays: &mut [f32; DEC_CASCADE_DELAYS],
) -> usize
    ensures answer { record { number = result; state = dec_cascade_at exit depth delays } ≡ dec_cascade_opening wanted_depth }
    ensures meets { result ≡ 0 → DecCascadeMeets wanted_depth (dec_cascade_at exit depth delays) }
{
    let opened = HbfDecCascade::new(wanted_depth);
    let told = number(&opened);
    let state = opened.unwrap_or(HbfDecCascade::zeros());
    put_cascade(state.depth, &state.delays, depth, delays);
    told
}

#[unsafe(no_mangle)]
pub extern "C" fn gauge_raw_hbf_dec_cascade_reset(
    depth: &mut usize,
    delays: &mut [f32; DEC_CASCADE_DELAYS],
) -> usize
    ensures answer { record { number = result; state = dec_cascade_at exit depth delays } ≡ dec_cascade_reset (dec_cascade_at entry depth delays) }
{
    let answer = reset_lent(*depth, delays);
    number(&answer)
}

#[unsafe(no_mangle)]
pub extern "C" fn gauge_raw_hbf_dec_cascade_process(
    depth: &mut usize,
    delays: &mut [f32; DEC_CASCADE_DELAYS],
    src: &[f32],
    dst: &mut [f32],
    written: &mut usize,
) -> usize
    ensures answer { let before = dec_cascade_at entry depth delays in
        let after = dec_cascade_at exit depth delays in
        record { number = result; value = written.new; state = after } ≡ dec_cascade_block before src.now (length dst.old) }
    ensures span { dst.new ≡ dec_cascade_span (dec_cascade_at entry depth delays) src.now dst.old }
{
    let answer = frames_lent::<Db140>(*depth, delays, src, dst);
    *written = answer.unwrap_or(0);
    number(&answer)
}
