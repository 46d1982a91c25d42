// 01's limits of the half-band converters.
ghost use Rattle.std.specs.Prelude.{◌≡◌, cond, ◌^◌, ◌≤◌, IfOk};
ghost use Rattle.refusal.specs.Outcome.{number_in};
ghost use Rattle.refusal.specs.Rows as R;

use refusal::Refusal;
use refusal::rows::outside;

pub const MOST_HALF_BAND_TAPS: usize = 23;

pub const MOST_DEPTH: usize = 5;

// The places of a decimator's delay: its window has 4 for each tap.
pub const DEC_DELAYS: usize = 4 * (MOST_HALF_BAND_TAPS + 1);

// The places of an interpolator's delay: its window has 2 for each tap.
pub const INT_DELAYS: usize = 2 * (MOST_HALF_BAND_TAPS + 1);

// The delays of a cascade's stages, one behind the other.
pub const DEC_CASCADE_DELAYS: usize = MOST_DEPTH * DEC_DELAYS;

pub const INT_CASCADE_DELAYS: usize = MOST_DEPTH * INT_DELAYS;

// What a cascade of so many stages multiplies or divides the rate by. That they are five at most stands in four contracts, as one part of each: a type for it would be made
// by two callers and read by its field in all.
pub(crate) fn rate_change(depth: usize) -> usize
    requires { depth ≤ 5 }
    ensures { result ≡ 2 ^ depth }
{
    1 << depth
}

// Row 15 of a state: taps or stages that its opening refuses, not 1 to `most`.
#[tactic(auto, unfolding(refusal::specs::Rows::outside))]
#[inline(always)]
pub(crate) fn state_answer(n: usize, most: usize) -> Result<(), Refusal>
    ensures number { number_in result ≡ cond (R.outside n 1 most) 15 0 }
    ensures inside { IfOk result (λ _. (1 ≤ n) × (n ≤ most)) }
{
    if outside(n, 1, most) {
        return Err(Refusal::State);
    }
    Ok(())
}
