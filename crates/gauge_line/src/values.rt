// Single values: the cut to 16 bits, a level as f32, the response lengths and the taps of the half-band stages.
ghost use Rattle.std.specs.Prelude.{◌≡◌};
ghost use Rattle.std.specs.Int.{w16};
ghost use Rattle.q15.specs.Fixed as Q;
ghost use Rattle.float.specs.Level.{level, IsLevel};
ghost use Rattle.half_band.specs.HbfTaps.{hbf_taps};
ghost use Rattle.half_band.specs.HbfTaps98.{hbf_taps98};
ghost use Rattle.half_band.specs.ResponseLength.{dec_lengths, int_lengths, length_at};

use crate::answers::number;
use crate::states::flag;
use float::q15_to_f32;
use half_band::{
    hbf_dec_response_length, hbf_int_response_length, hbf_tap_table, hbf_tap_table_98,
};
use q15::{Q15, cut_q15};

#[unsafe(no_mangle)]
pub extern "C" fn gauge_raw_cut_q15(sum: i64, value: &mut i16, cut: &mut usize)
    ensures value { value.new ≡ Q.cut w16 sum }
    ensures cut { cut.new ≡ Q.cut_one w16 sum }
{
    let made = cut_q15(sum);
    *value = made.value.0;
    *cut = flag(made.cut);
}

#[unsafe(no_mangle)]
pub extern "C" fn gauge_raw_q15_to_f32(bits: i16, value: &mut f32)
    ensures value { value.new ≡ level bits }
    ensures exact { IsLevel bits value.new }
{
    *value = q15_to_f32(Q15(bits));
}

#[unsafe(no_mangle)]
pub extern "C" fn gauge_raw_hbf_dec_response_length(depth: usize, length: &mut usize) -> usize
    ensures { record { number = result; value = length.new } ≡ length_at dec_lengths depth }
{
    let answer = hbf_dec_response_length(depth);
    let told = number(&answer);
    *length = answer.unwrap_or(0);
    told
}

#[unsafe(no_mangle)]
pub extern "C" fn gauge_raw_hbf_int_response_length(depth: usize, length: &mut usize) -> usize
    ensures { record { number = result; value = length.new } ≡ length_at int_lengths depth }
{
    let answer = hbf_int_response_length(depth);
    let told = number(&answer);
    *length = answer.unwrap_or(0);
    told
}

#[unsafe(no_mangle)]
pub extern "C" fn gauge_raw_hbf_tap_table(taps: &mut [f32; 45])
    ensures { taps.new ≡ hbf_taps }
{
    *taps = hbf_tap_table();
}

#[unsafe(no_mangle)]
pub extern "C" fn gauge_raw_hbf_tap_table_98(taps: &mut [f32; 29])
    ensures { taps.new ≡ hbf_taps98 }
{
    *taps = hbf_tap_table_98();
}
