// The linear resamplers.
ghost use Rattle.std.specs.Prelude.{◌≡◌};
ghost use Rattle.q15.specs.ResampleLinear as Q;
ghost use Rattle.float.specs.ResampleLinear as F;

use crate::answers::number;
use float::resample_linear_f32;
use q15::resample_linear_q15;

#[unsafe(no_mangle)]
pub extern "C" fn gauge_raw_resample_linear_q15(
    src: &[i16],
    dst: &mut [i16],
    ratio_q16: i32,
    written: &mut usize,
) -> usize
    ensures answer { record { number = result; value = written.new } ≡ Q.linear_answer src.now ratio_q16 dst.old }
    ensures span { dst.new ≡ Q.linear_span src.now ratio_q16 dst.old }
{
    let answer = resample_linear_q15(src, dst, ratio_q16);
    let told = number(&answer);
    *written = answer.unwrap_or(0);
    told
}

#[unsafe(no_mangle)]
pub extern "C" fn gauge_raw_resample_linear_f32(
    src: &[f32],
    dst: &mut [f32],
    ratio: f32,
    written: &mut usize,
) -> usize
    ensures answer { record { number = result; value = written.new } ≡ F.linear_answer src.now dst.old ratio }
    ensures span { dst.new ≡ F.linear_span src.now dst.old ratio }
{
    let answer = resample_linear_f32(src, dst, ratio);
    let told = number(&answer);
    *written = answer.unwrap_or(0);
    told
}
