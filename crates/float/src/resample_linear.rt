// 01, section 7: linear resampling of f32 samples.
ghost use Rattle.std.specs.Prelude.{◌≡◌, ◌≤◌, length};
ghost use Rattle.refusal.specs.Outcome.{count_answer};
ghost use Rattle.refusal.specs.Rows.{most_block};
ghost use Rattle.float.specs.ResampleLinear as L;

use crate::cast::{f32_of, whole_up_to};
use crate::settings::above_zero;
use refusal::Refusal;
use refusal::rows::samples_refused;

// Output i.
fn linear_at(src: &[f32], i: u32, ratio: f32) -> f32
    requires { (i ≤ most_block) × (1 ≤ length src.now) × (length src.now ≤ most_block) }
    ensures { result ≡ L.linear_at src.now ratio i }
{
    let position = f32_of(i) * ratio;
    let last = src.len() - 1;
    let Some(whole) = whole_up_to(last as u32, position) else {
        return src[last];
    };
    let index = whole as usize;
    let fraction = position - f32_of(whole);
    let next = (index + 1).min(last);
    src[index] * (1.0 - fraction) + src[next] * fraction
}

// Fills dst with the outputs at 0, ratio, 2 × ratio, .. of src. Refused by 7 and 9.
#[tactic(auto, unfolding(crate::specs::ResampleLinear::linear_answer, crate::specs::ResampleLinear::linear_span))]
pub fn resample_linear_f32(src: &[f32], dst: &mut [f32], ratio: f32) -> Result<usize, Refusal>
    ensures answer { count_answer result ≡ L.linear_answer src.now dst.old ratio }
    ensures span { dst.new ≡ L.linear_span src.now dst.old ratio }
{
    if samples_refused(src.len(), dst.len()) {
        return Err(Refusal::Samples);
    }
    if !above_zero(ratio) {
        return Err(Refusal::Ratio);
    }
    // By a number of 32 bits, of which a machine with as many makes an f32 in one step.
    for i in 0..dst.len() as u32 {
        dst[i as usize] = linear_at(src, i, ratio);
    }
    Ok(dst.len())
}
