// 02, §8: the samples of which no sum of a CIC decimator wraps.
ghost use Rattle.std.specs.Prelude.{◌≡◌, ◌≤◌, true};
ghost use Rattle.refusal.specs.Outcome.{told};
ghost use Rattle.integer.specs.ExactSums.{least_exact, greatest_exact, no_ends, exact_range};
ghost use Rattle.integer.specs.Gain.{most_bits};

use crate::gain::{scaled, scaling_bits};
use refusal::Refusal;

// The ends of a range, both in it. No `Default`: ends of 0 and 0 hold a sample, so a refused call names what it tells for them.
#[derive(Clone, Copy, PartialEq, Eq, Debug)]
pub struct Ends {
    pub least: i32,
    pub greatest: i32,
}

// The ends of the i32, scaled as the sums are: a sum of samples within them is at most 2^bits times as large.
fn scaled_ends(bits: u32) -> Ends
    requires { bits ≤ most_bits }
    ensures { (result.least ≡ least_exact bits) × (result.greatest ≡ greatest_exact bits) }
{
    Ends {
        least: scaled(i32::MIN, bits),
        greatest: scaled(i32::MAX, bits),
    }
}

// The range of a valid decimator of N stages and factor r.
#[tactic(auto, unfolding(crate::specs::Gain::scaling_bits, crate::specs::ExactSums::exact_range))]
pub(crate) fn range_of(stages: usize, r: usize) -> Result<Ends, Refusal>
    ensures { told no_ends result ≡ exact_range true stages r }
{
    let bits = scaling_bits(stages, r)?;
    Ok(scaled_ends(bits))
}
