// 01, "Where each call is turned back": the rows that the Q15 blocks share.
ghost use Rattle.std.specs.Prelude.{◌≡◌};
ghost use Rattle.refusal.specs.Outcome.{number_in};
ghost use Rattle.q15.specs.Block.{samples_number, fir_number, block_number};

use refusal::Refusal;
use refusal::rows::{MOST_BLOCK, outside, samples_refused};

// The largest factor.
pub const MOST_FACTOR: usize = 4096;

// How many outputs of a FIR block stand in front of the span, and how many of them were cut.
#[derive(Clone, Copy, PartialEq, Eq, Debug)]
pub struct FirBlock {
    pub written: usize,
    pub cuts: usize,
}

// What a block of no outputs wrote, as a refused one. No `Default`: the name says why both are 0.
pub const NONE_WRITTEN: FirBlock = FirBlock {
    written: 0,
    cuts: 0,
};

// Row 7, for n samples and a span of m places.
#[tactic(auto, unfolding(crate::specs::Block::samples_number))]
pub(crate) fn samples_row(n: usize, m: usize) -> Result<(), Refusal>
    ensures { number_in result ≡ samples_number n m }
{
    if samples_refused(n, m) {
        return Err(Refusal::Samples);
    }
    Ok(())
}

// Rows 5 and 6, for t taps where there may be `most`.
#[tactic(auto, unfolding(crate::specs::Block::fir_number))]
pub(crate) fn fir_rows(factor: usize, t: usize, most: usize) -> Result<(), Refusal>
    ensures { number_in result ≡ fir_number most factor t }
{
    if outside(factor, 1, MOST_FACTOR) {
        return Err(Refusal::FirFactor);
    }
    if outside(t, 1, most) {
        return Err(Refusal::Taps);
    }
    Ok(())
}

// Rows 5, 6 and 7, for t taps.
#[tactic(auto, unfolding(crate::specs::Block::block_number))]
pub(crate) fn block_rows(factor: usize, t: usize, n: usize, m: usize) -> Result<(), Refusal>
    ensures { number_in result ≡ block_number factor t n m }
{
    fir_rows(factor, t, MOST_BLOCK)?;
    samples_row(n, m)
}
