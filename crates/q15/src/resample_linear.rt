// 01, section 7: linear resampling of a block.
ghost use Rattle.std.specs.Prelude.{◌≡◌, ◌*◌, ◌^◌, ◌≤◌, ◌<◌, length};
ghost use Rattle.refusal.specs.Outcome.{number_in, count_answer};
ghost use Rattle.theory.specs.Lists.{listed};
ghost use Rattle.theory.proofs.Integers.{up, dn};
ghost use Rattle.refusal.specs.Rows.{most_block};
ghost use Rattle.q15.specs.ResampleLinear.{part_of, between, next_index, linear_at, linear_number, linear_answer, linear_span};

use crate::block::samples_row;
use crate::fixed::Q15;
use refusal::Refusal;

// Rows 7 and 9.
#[tactic(auto, unfolding(crate::specs::ResampleLinear::linear_number))]
fn linear_rows(n: usize, m: usize, ratio: i32) -> Result<(), Refusal>
    ensures { number_in result ≡ linear_number n m ratio }
{
    samples_row(n, m)?;
    if 0 < ratio {
        Ok(())
    } else {
        Err(Refusal::Ratio)
    }
}

// floor(d × frac / 65536)
#[tactic(auto, unfolding(crate::specs::ResampleLinear::part_of))]
fn part_of(d: i64, frac: usize) -> i64
    requires { (frac < 65536) × (up d ≤ 65535) × (dn d ≤ 65535) }
    ensures { result ≡ part_of d frac }
{
    let p = d * (frac as i64);
    p >> 16
}

// frac 65536ths of the way from a to b.
#[tactic(auto, unfolding(crate::specs::ResampleLinear::between))]
fn between_samples(a: i16, b: i16, frac: usize) -> Q15
    requires { frac < 65536 }
    ensures { result.0 ≡ between a b frac }
{
    let x = i64::from(a);
    let y = i64::from(b);
    let part = part_of(y - x, frac);
    Q15((x + part) as i16)
}

// The samples of a block, of which there is one at least.
#[derive(Clone, Copy)]
struct Samples<'a> {
    all: &'a [i16],
    ghost some: { (1 ≤ length all.now) × (length all.now ≤ most_block) },
}

impl Samples<'_> {
    // The index of the sample after i, or i at the last.
    fn next_index(self, i: usize) -> usize
        requires { i < length self.all.now }
        ensures { (result ≡ next_index (length self.entry.all.now) i) × (result < length self.entry.all.now) }
    {
        let n = self.all.len();
        (i + 1).min(n - 1)
    }

    // The value at a position in 65536ths of a sample.
    #[tactic(auto, unfolding(crate::specs::ResampleLinear::linear_at))]
    fn linear_at(self, position: usize) -> Q15
        ensures { result.0 ≡ linear_at self.entry.all.now position }
    {
        let src = self.all;
        let i = position / 65536;
        if src.len() <= i {
            return Q15(src[src.len() - 1]);
        }
        let next = self.next_index(i);
        between_samples(src[i], src[next], position % 65536)
    }

    // The whole span.
    fn resample(self, ratio: usize, dst: &mut [i16])
        requires { (ratio < 2 ^ 31) × (length dst.old ≤ most_block) }
        ensures { dst.new ≡ listed (length dst.old) (λ i. linear_at self.entry.all.now (i * ratio)) }
    {
        for (i, place) in dst.iter_mut().enumerate() {
            *place = self.linear_at(i * ratio).0;
        }
    }
}

// Fills the span from positions that are ratio_q16 65536ths of a sample apart; answers the span's length. Refusals 7, 9.
pub fn resample_linear_q15(src: &[i16], dst: &mut [i16], ratio_q16: i32) -> Result<usize, Refusal>
    ensures answer { count_answer result ≡ linear_answer src.now ratio_q16 dst.old }
    ensures span { dst.new ≡ linear_span src.now ratio_q16 dst.old }
{
    linear_rows(src.len(), dst.len(), ratio_q16)?;
    let samples = Samples { all: src };
    samples.resample(ratio_q16 as usize, dst);
    Ok(dst.len())
}
