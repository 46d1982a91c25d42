// How far an output of a decimating cascade reaches back.
ghost use Rattle.std.specs.Prelude.{◌≡◌};
ghost use Rattle.theory.specs.Sections.{outs};
ghost use Rattle.half_band.specs.HbfTaps.{stage_taps, decimation};
ghost use Rattle.half_band.specs.HbfTaps98.{decimation98};
ghost use Rattle.half_band.specs.HbfStream.{stream, stream_fresh};
ghost use Rattle.half_band.specs.Reach.{reach_at, Reaches};

use crate::answers::number;
use half_band::{Db98, Db140, hbf_dec_reach};

#[unsafe(no_mangle)]
pub extern "C" fn gauge_raw_hbf_dec_reach(depth: usize, reach: &mut usize) -> usize
    ensures answer { record { number = result; value = reach.new } ≡ reach_at decimation depth }
    ensures reach { result ≡ 0 → Reaches reach.new depth (outs (stream (stage_taps decimation)) (stream_fresh depth)) }
{
    let answer = hbf_dec_reach::<Db140>(depth);
    *reach = answer.unwrap_or(0);
    number(&answer)
}

#[unsafe(no_mangle)]
pub extern "C" fn gauge_raw_hbf_dec_reach_98(depth: usize, reach: &mut usize) -> usize
    ensures answer { record { number = result; value = reach.new } ≡ reach_at decimation98 depth }
    ensures reach { result ≡ 0 → Reaches reach.new depth (outs (stream (stage_taps decimation98)) (stream_fresh depth)) }
{
    let answer = hbf_dec_reach::<Db98>(depth);
    *reach = answer.unwrap_or(0);
    number(&answer)
}
