// 02, §11: how many input samples an output of a decimating half-band cascade follows from.
ghost use Rattle.std.specs.Prelude.{◌≡◌, IfOk};
ghost use Rattle.theory.specs.Sections.{outs};
ghost use Rattle.refusal.specs.Outcome.{count_answer};
ghost use Rattle.half_band.specs.HbfTaps.{stage_taps};
ghost use Rattle.half_band.specs.HbfStream.{stream, stream_fresh};
ghost use Rattle.half_band.specs.Reach.{reach_at, Reaches};

use crate::hbf_taps::StageTable;
use crate::response_length::depth_answer;
use refusal::Refusal;

// Of the cascade of the table T. Refusal 11: a depth over 5.
#[tactic(auto, unfolding(crate::specs::Reach::reach_at))]
pub fn hbf_dec_reach<T: StageTable>(depth: usize) -> Result<usize, Refusal>
    ensures answer { count_answer result ≡ reach_at T.table depth }
    ensures reach { IfOk result (λ reach. Reaches reach depth (outs (stream (stage_taps T.table)) (stream_fresh depth))) }
{
    depth_answer(depth)?;
    let mut reach = 1;
    for k in 0..depth {
        reach += (4 * T::stage(k).len() - 2) << k;
    }
    Ok(reach)
}
