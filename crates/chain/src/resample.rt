// 01, section 5: the levels of a block into the resampler.
ghost use Rattle.std.specs.Prelude.{◌≡◌, true, ◌≤◌, length};
ghost use Rattle.float.specs.PolyphaseOpening.{valid_in_line};
ghost use Rattle.float.specs.PolyphaseResamp.{state_of};
ghost use Rattle.chain.specs.Chain.{from5};
ghost use Rattle.chain.specs.inner.Batched.{Whole, Batched};

use float::settings::{MOST_CELLS, MOST_PHASE_TAPS, Setting};
use refusal::NONE_MOVED;

// Levels into the resampler, which writes from the front of the span on; where it is off they are written themselves. Answers how many places are written.
pub(crate) fn resample(
    setting: Setting,
    mu: &mut f32,
    delay: &mut [f32; MOST_PHASE_TAPS],
    prototype: &[f32; MOST_CELLS],
    levels: &[f32],
    out: &mut [f32],
) -> usize
    ensures within { result ≤ length out.old }
    ensures batched { let before = state_of setting mu.old delay.old prototype.now in
        let after = state_of setting mu.new delay.new prototype.now in
        valid_in_line before ≡ true → Whole from5 before levels.now (length out.old)
        → Batched from5 before levels.now out.old out.new after result }
{
    if setting.phases == 0 {
        let count = levels.len();
        if out.len() < count {
            return 0;
        }
        out[..count].copy_from_slice(levels);
        return count;
    }
    // Nothing comes in and nothing is due: the block would make its tape ready for it.
    if levels.is_empty() && !(*mu < 1.0) {
        return 0;
    }
    let moved = setting.block(mu, delay, prototype, levels, out);
    moved.unwrap_or(NONE_MOVED).written
}
