// Row 15 of 01's table, as a call on the line has it.
ghost use Rattle.std.specs.Prelude.{◌≡◌, is_ok, IfOk, IfErr};
ghost use Rattle.integer.specs.Gain.{gain_bits};
ghost use Rattle.refusal.specs.Table.{number_of};
ghost use Rattle.line.specs.inner.Numbers.{fixed_in};
ghost use Rattle.line.specs.inner.Together as T;

use crate::lent::LineNumbers;
use chain::fixed::Fixed;
use half_band::{MOST_DEPTH, hbf_stream_refused_in_line};
use integer::gain::scaling_bits;
use nonrecursive::thinning::thinning_valid;
use refusal::Refusal;

// What a feed never changes, of a line whose numbers row 15 was looked at. That the bits are those of the gain stands here and not in `Fixed`, since `take_batch` and
// `sums_for`, which are public, take any bits.
#[derive(Clone, Copy)]
pub(crate) struct Checked {
    pub fixed: Fixed,
    ghost scales: { fixed.bits ≡ gain_bits fixed.settings.stages fixed.settings.r },
}

impl LineNumbers {
    // What no feed changes. Refusal 15, by these numbers and counts of held samples. Inlined, since a call would cost a feed of one sample a sixth more.
    #[inline(always)]
    #[tactic(auto, unfolding(crate::specs::inner::Together::valid_at, integer::specs::Gain::scaling_bits))]
    pub(crate) fn checked(self, counts: &[usize; MOST_DEPTH]) -> Result<Checked, Refusal>
        ensures valid { is_ok result ≡ T.valid_at self counts.now }
        ensures fixed { IfOk result (λ c. c.fixed ≡ fixed_in self) }
        ensures number { IfErr result (λ row. number_of row ≡ 15) }
    {
        let s = self.settings;
        let clock = self.clock;
        if !thinning_valid(s.thinning, s.stages, s.r, clock.sample_counter) {
            return Err(Refusal::State);
        }
        let Ok(bits) = scaling_bits(s.stages, s.r) else {
            return Err(Refusal::State);
        };
        let fine = s.fir(self.tap_count).is_valid_in_line(clock.wait)
            && !hbf_stream_refused_in_line(s.depth, counts)
            && s.resampler().is_valid_in_line(clock.mu);
        if !fine {
            return Err(Refusal::State);
        }
        Ok(Checked {
            fixed: Fixed {
                settings: s,
                tap_count: self.tap_count,
                bits,
            },
        })
    }
}

// `line_valid` by the numbers alone, and the counts of held samples.
pub fn numbers_valid(n: LineNumbers, counts: &[usize; MOST_DEPTH]) -> bool
    ensures { result ≡ T.valid_at n counts.now }
{
    n.checked(counts).is_ok()
}
