// The Q15 converters that hold no state.
ghost use Rattle.std.specs.Prelude.{◌≡◌};
ghost use Rattle.q15.specs.PolyphaseDecimate.{decimate_answer, decimate_span, decimate_cuts};
ghost use Rattle.q15.specs.Rounding.{Rounded};
ghost use Rattle.q15.specs.PolyphaseInterpolate.{interpolate_answer, interpolate_span, interpolate_cuts};

use crate::answers::number;
use q15::{NONE_WRITTEN, polyphase_decimate_q15, polyphase_interpolate_q15};

#[unsafe(no_mangle)]
pub extern "C" fn gauge_raw_polyphase_decimate_q15(
    src: &[i16],
    coeffs: &[i16],
    decimation_factor: usize,
    dst: &mut [i16],
    written: &mut usize,
    cuts: &mut usize,
) -> usize
    ensures answer { record { number = result; value = written.new } ≡ decimate_answer coeffs.now decimation_factor src.now dst.old }
    ensures span { dst.new ≡ decimate_span coeffs.now decimation_factor src.now dst.old }
    ensures cuts { cuts.new ≡ decimate_cuts coeffs.now decimation_factor src.now dst.old }
    ensures rounding { Rounded coeffs.now decimation_factor src.now }
{
    let answer = polyphase_decimate_q15(src, coeffs, decimation_factor, dst);
    let told = number(&answer);
    let block = answer.unwrap_or(NONE_WRITTEN);
    *written = block.written;
    *cuts = block.cuts;
    told
}

#[unsafe(no_mangle)]
pub extern "C" fn gauge_raw_polyphase_interpolate_q15(
    src: &[i16],
    coeffs: &[i16],
    interpolation_factor: usize,
    dst: &mut [i16],
    written: &mut usize,
    cuts: &mut usize,
) -> usize
    ensures answer { record { number = result; value = written.new } ≡ interpolate_answer coeffs.now interpolation_factor src.now dst.old }
    ensures span { dst.new ≡ interpolate_span coeffs.now interpolation_factor src.now dst.old }
    ensures cuts { cuts.new ≡ interpolate_cuts coeffs.now interpolation_factor src.now dst.old }
{
    let answer = polyphase_interpolate_q15(src, coeffs, interpolation_factor, dst);
    let told = number(&answer);
    let block = answer.unwrap_or(NONE_WRITTEN);
    *written = block.written;
    *cuts = block.cuts;
    told
}
