// 02, §13: "the line may be opened with either": section 1 of the line, by the kind of its thinning.
ghost use Rattle.std.specs.Prelude.{◌≡◌, ◌++◌, length, drop};
ghost use Rattle.nonrecursive.specs.EitherKind as E;

use crate::block::block_at;
use crate::nonrecursive_decimator::{MOST_NEIGHBOURS, nonrecursive_at, power_of_two};
use integer::cic_decimator::{block_at as cic_block_at, sample_at, valid};
use integer::limits::MOST_STAGES;
use refusal::{Moved, NONE_MOVED};

// The CIC decimator, or sums of neighbours.
#[derive(Clone, Copy, PartialEq, Eq, Debug, Default)]
pub enum Thinning {
    #[default]
    Integrators,
    Neighbours,
}

// Row 23, which is for neighbours only.
#[tactic(auto, unfolding(crate::specs::EitherKind::factor_for))]
pub fn factor_for(thinning: Thinning, r: usize) -> bool
    ensures { result ≡ E.factor_for thinning r }
{
    match thinning {
        Thinning::Integrators => true,
        Thinning::Neighbours => power_of_two(r),
    }
}

// Whether a call on a state with these numbers is not refused by 15.
pub fn thinning_valid(thinning: Thinning, stages: usize, r: usize, sample_counter: usize) -> bool
    ensures { result ≡ E.valid_at thinning stages r sample_counter }
{
    valid(stages, r, sample_counter) && factor_for(thinning, r)
}

// One sample, the fields lent. The arrays of the other kind stay as they are. The kind is a bool, since the compiler folds a constant one where it inlines the call:
// an enum is passed in memory.
pub fn thin_at(
    by_neighbours: bool,
    stages: usize,
    r: usize,
    sample_counter: &mut usize,
    integrators: &mut [i32; MOST_STAGES],
    combs: &mut [i32; MOST_STAGES],
    neighbours: &mut [i32; MOST_NEIGHBOURS],
    input: i32,
) -> Option<i32>
    ensures { let kind = E.kind_of by_neighbours in
        let before = E.thinner_of kind stages r integrators.old combs.old neighbours.old sample_counter.old in
        let after = E.thinner_of kind stages r integrators.new combs.new neighbours.new sample_counter.new in
        (result ≡ E.out_by kind before input) × (after ≡ E.next_by kind before input) }
{
    if by_neighbours {
        return nonrecursive_at(stages, r, sample_counter, neighbours, input);
    }
    sample_at(stages, r, sample_counter, integrators, combs, input)
}

// A block, the fields lent: the sums of src, before they are scaled, in front of dst while it has a place. The arrays of the other kind stay as they are. A leaf
// for the line, which has looked at the numbers: it tells no refusal, and with numbers that 15 refuses it does nothing.
pub fn thin_block_at(
    thinning: Thinning,
    stages: usize,
    r: usize,
    sample_counter: &mut usize,
    integrators: &mut [i32; MOST_STAGES],
    combs: &mut [i32; MOST_STAGES],
    neighbours: &mut [i32; MOST_NEIGHBOURS],
    src: &[i32],
    dst: &mut [i32],
) -> Moved
    ensures counts { let before = E.thinner_of thinning stages r integrators.old combs.old neighbours.old sample_counter.old in
        let fed = E.thin_fed before src.now (length dst.old) in
        (result.taken ≡ fed.taken) × (result.written ≡ length fed.written) }
    ensures state { let before = E.thinner_of thinning stages r integrators.old combs.old neighbours.old sample_counter.old in
        let fed = E.thin_fed before src.now (length dst.old) in
        E.thinner_of thinning stages r integrators.new combs.new neighbours.new sample_counter.new ≡ fed.line }
    ensures span { let before = E.thinner_of thinning stages r integrators.old combs.old neighbours.old sample_counter.old in
        let fed = E.thin_fed before src.now (length dst.old) in
        dst.new ≡ fed.written ++ drop (length fed.written) dst.old }
{
    match thinning {
        Thinning::Integrators => {
            let counts = cic_block_at(stages, r, sample_counter, integrators, combs, src, dst);
            counts.unwrap_or(NONE_MOVED)
        }
        Thinning::Neighbours => {
            let counts = block_at(stages, r, sample_counter, neighbours, src, dst);
            counts.unwrap_or(NONE_MOVED)
        }
    }
}
