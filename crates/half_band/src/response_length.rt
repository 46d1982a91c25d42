// 01, section 7: how many low-rate samples the response of a half-band cascade lasts, the Rust's numbers.
ghost use Rattle.std.specs.Prelude.{◌≡◌, cond, ltb, ◌≤◌, IfOk};
ghost use Rattle.refusal.specs.Outcome.{number_in, count_answer};
ghost use Rattle.half_band.specs.ResponseLength.{dec_lengths, int_lengths, length_at};

use crate::limits::MOST_DEPTH;
use refusal::Refusal;

const DECIMATION: [usize; MOST_DEPTH + 1] = [0, 23, 28, 29, 29, 29];

const INTERPOLATION: [usize; MOST_DEPTH + 1] = [0, 46, 112, 234, 476, 958];

// Refusal 11: a depth over 5. Depth 0 is not refused: its length is 0, and its reach 1.
pub(crate) fn depth_answer(depth: usize) -> Result<(), Refusal>
    ensures number { number_in result ≡ cond (ltb 5 depth) 11 0 }
    ensures inside { IfOk result (λ _. depth ≤ 5) }
{
    if MOST_DEPTH < depth {
        return Err(Refusal::Depth);
    }
    Ok(())
}

// The length of a depth. Refusal 11: a depth over 5.
fn at_depth(lengths: [usize; MOST_DEPTH + 1], depth: usize) -> Result<usize, Refusal>
    ensures { count_answer result ≡ length_at lengths depth }
{
    depth_answer(depth)?;
    Ok(lengths[depth])
}

// Refusal 11: a depth over 5.
pub fn hbf_dec_response_length(depth: usize) -> Result<usize, Refusal>
    ensures { count_answer result ≡ length_at dec_lengths depth }
{
    at_depth(DECIMATION, depth)
}

// Refusal 11: a depth over 5.
pub fn hbf_int_response_length(depth: usize) -> Result<usize, Refusal>
    ensures { count_answer result ≡ length_at int_lengths depth }
{
    at_depth(INTERPOLATION, depth)
}
