// 02, §13: the sums of the CIC decimator with no integrators, for a factor that is a power of two. Each halving of the factor adds neighbours, as often as there
// are stages, and hands every second value on.
ghost use Rattle.std.specs.Prelude.{◌≡◌, cond, IfOk, None, length};
ghost use Rattle.theory.specs.Sections.{outs};
ghost use Rattle.refusal.specs.Outcome.{number_in, none_moved, told, told_on, told_opened};
ghost use Rattle.integer.specs.Opening.{on_state};
ghost use Rattle.integer.specs.Stages.{kept, sum32};
ghost use Rattle.integer.specs.Gain.{gain_of, gain_bits, Least};
ghost use Rattle.integer.specs.ExactSums.{ExactSums};
ghost use Rattle.nonrecursive.specs.NonrecursiveDecimator as D;

use crate::block::block_at;
use integer::cic_decimator::waits;
use integer::gain::{bits_of, gain_of, scaled, scaling_bits};
use integer::limits::settings_answer;
use integer::stages::{Stage, pass};
use refusal::{Moved, Refusal};

// 8 stages for each of the 12 halvings of 4,096.
pub const MOST_NEIGHBOURS: usize = 96;

#[derive(Drop)]
pub struct NonrecursiveDecimator {
    pub stages: usize,
    pub r: usize,
    pub neighbours: [i32; MOST_NEIGHBOURS],
    pub place: usize,
}

// It keeps a value, and hands on the sum of it and the one before.
pub struct Neighbour;

impl Stage for Neighbour {
    ghost keep = { kept };

    ghost out = { sum32 };

    fn pass(state: i32, val: i32) -> (i32, i32) {
        (val, state.wrapping_add(val))
    }
}

// A value goes through the first `stages` neighbours.
#[tactic(auto, unfolding(crate::specs::NonrecursiveDecimator::summed))]
pub(crate) fn sum_neighbours(stages: usize, neighbours: &mut [i32], input: i32) -> i32
    ensures { (neighbours.new ≡ (D.summed stages neighbours.old input).state) × (result ≡ (D.summed stages neighbours.old input).val) }
{
    pass::<Neighbour>(stages, neighbours, input)
}

// A value goes through the halvings of r: the first of two ends at its halving, the second goes on. No range over their number by
// `ilog2`: tried, and a sample by itself takes 8 % more time.
fn thin(stages: usize, r: usize, place: usize, neighbours: &mut [i32], input: i32) -> Option<i32>
    ensures { (neighbours.new ≡ (D.thinned stages (D.halvings r) neighbours.old place input).state) × (result ≡ (D.thinned stages (D.halvings r) neighbours.old place input).out) }
{
    let mut val = input;
    let mut left = r;
    let mut at = place;
    let mut from = 0;
    while 2 <= left {
        val = sum_neighbours(stages, &mut neighbours[from..], val);
        if at % 2 == 0 {
            return None;
        }
        from += stages.min(neighbours.len() - from);
        at /= 2;
        left /= 2;
    }
    Some(val)
}

// One sample, the fields lent. A leaf for the line, which keeps them apart and has looked at the numbers: it refuses nothing.
#[tactic(auto, using(theory::proofs::Wrap::wrap_id), unfolding(crate::specs::NonrecursiveDecimator::nonrecursive))]
pub fn nonrecursive_at(
    stages: usize,
    r: usize,
    place: &mut usize,
    neighbours: &mut [i32; MOST_NEIGHBOURS],
    input: i32,
) -> Option<i32>
    ensures out { result ≡ (D.nonrecursive).out (D.nonrecursive_of stages r neighbours.old place.old) input }
    ensures next { D.nonrecursive_of stages r neighbours.new place.new ≡ (D.nonrecursive).next (D.nonrecursive_of stages r neighbours.old place.old) input }
{
    let sum = thin(stages, r, *place, neighbours, input);
    if waits(*place, r) {
        *place += 1;
        return sum;
    }
    *place = 0;
    sum
}

pub fn power_of_two(r: usize) -> bool
    ensures { result ≡ D.power_of_two r }
{
    r.is_power_of_two()
}

// Rows 1, 2 and 23.
#[tactic(auto, unfolding(crate::specs::NonrecursiveDecimator::settings_number, integer::specs::Opening::settings_number))]
fn opening_answer(stages: usize, r: usize) -> Result<(), Refusal>
    ensures { number_in result ≡ D.settings_number stages r }
{
    settings_answer(stages, r)?;
    if !power_of_two(r) {
        return Err(Refusal::PowerOfTwo);
    }
    Ok(())
}

// Row 15.
#[tactic(auto, unfolding(crate::specs::NonrecursiveDecimator::valid_at))]
pub(crate) fn state_answer(stages: usize, r: usize, place: usize) -> Result<(), Refusal>
    ensures { number_in result ≡ cond (D.valid_at stages r place) 0 15 }
{
    if opening_answer(stages, r).is_err() || r <= place {
        return Err(Refusal::State);
    }
    Ok(())
}

// `NonrecursiveDecimator::process_sample` for the C function, which is lent the state's fields: a sample does not pay for moving them.
#[tactic(auto, unfolding(crate::specs::NonrecursiveDecimator::step))]
pub fn sample_lent(
    stages: usize,
    r: usize,
    place: &mut usize,
    neighbours: &mut [i32; MOST_NEIGHBOURS],
    input: i32,
) -> Result<Option<i32>, Refusal>
    ensures answer { told_on None result (D.nonrecursive_of stages r neighbours.new place.new) ≡ D.step (D.nonrecursive_of stages r neighbours.old place.old) input }
{
    state_answer(stages, r, *place)?;
    Ok(nonrecursive_at(stages, r, place, neighbours, input))
}

// `NonrecursiveDecimator::process_sample_scaled`, likewise. Refusal 3 is looked at on every call: it goes by the settings alone.
#[tactic(auto, unfolding(crate::specs::NonrecursiveDecimator::scaled_step, crate::specs::NonrecursiveDecimator::scaled_nonrecursive, integer::specs::Gain::scaling_bits))]
pub fn scaled_sample_lent(
    stages: usize,
    r: usize,
    place: &mut usize,
    neighbours: &mut [i32; MOST_NEIGHBOURS],
    input: i32,
) -> Result<Option<i32>, Refusal>
    ensures answer { told_on None result (D.nonrecursive_of stages r neighbours.new place.new) ≡ D.scaled_step (D.nonrecursive_of stages r neighbours.old place.old) input }
{
    state_answer(stages, r, *place)?;
    let bits = scaling_bits(stages, r)?;
    let sum = nonrecursive_at(stages, r, place, neighbours, input);
    Ok(sum.map(|sum| scaled(sum, bits)))
}

// The methods are the CIC decimator's, of two lines each: a trait over both would ask each for its section, its validity and its settings first.
impl NonrecursiveDecimator {
    // One that has taken nothing in yet. A refused opening leaves that of 0 and 0, which is zeros.
    pub fn fresh(stages: usize, r: usize) -> NonrecursiveDecimator
        ensures { result ≡ D.fresh stages r }
    {
        NonrecursiveDecimator {
            stages,
            r,
            neighbours: [0; MOST_NEIGHBOURS],
            place: 0,
        }
    }

    // Refusals 1, 2 and 23. The clause `stream` is Hogenauer's theorem, and that each answer is the CIC decimator's; `exact` says when no sum wraps.
    #[tactic(auto, unfolding(crate::specs::NonrecursiveDecimator::opening))]
    pub fn new(stages: usize, r: usize) -> Result<NonrecursiveDecimator, Refusal>
        ensures answer { told_opened (D.fresh 0 0) result ≡ D.opening stages r }
        ensures stream { IfOk result (D.Streams stages r) }
        ensures exact { IfOk result (λ d. ExactSums stages r (outs D.nonrecursive d) (outs D.scaled_nonrecursive d)) }
    {
        opening_answer(stages, r)?;
        Ok(NonrecursiveDecimator::fresh(stages, r))
    }

    // r^N, held at 2^64 - 1.
    #[tactic(auto, unfolding(integer::specs::Opening::on_state))]
    pub fn gain(&self) -> Result<u64, Refusal>
        ensures answer { told 0 result ≡ on_state (D.valid self.now) (gain_of self.now.stages self.now.r) }
    {
        state_answer(self.stages, self.r, self.place)?;
        Ok(gain_of(self.stages, self.r))
    }

    // The least g with 2^g no less than the gain.
    #[tactic(auto, using(integer::proofs::Bits::gain_least), unfolding(integer::specs::Opening::on_state))]
    pub fn gain_bits(&self) -> Result<u32, Refusal>
        ensures answer { told 0 result ≡ on_state (D.valid self.now) (gain_bits self.now.stages self.now.r) }
        ensures least { IfOk result (Least (gain_of self.now.stages self.now.r)) }
    {
        Ok(bits_of(self.gain()?))
    }

    // Two calls, this one and the scaled one, as 01's decimator has: each hands the fields to the leaf of its name.
    pub fn process_sample(&mut self, input: i32) -> Result<Option<i32>, Refusal>
        ensures answer { told_on None result self.new ≡ D.step self.old input }
    {
        sample_lent(
            self.stages,
            self.r,
            &mut self.place,
            &mut self.neighbours,
            input,
        )
    }

    pub fn process_sample_scaled(&mut self, input: i32) -> Result<Option<i32>, Refusal>
        ensures answer { told_on None result self.new ≡ D.scaled_step self.old input }
    {
        scaled_sample_lent(
            self.stages,
            self.r,
            &mut self.place,
            &mut self.neighbours,
            input,
        )
    }

    // Samples of src become sums in dst while dst has a place.
    pub fn process_block(&mut self, src: &[i32], dst: &mut [i32]) -> Result<Moved, Refusal>
        ensures answer { told_on none_moved result self.new ≡ D.block self.old src.now (length dst.old) }
        ensures span { dst.new ≡ D.block_span self.old src.now dst.old }
    {
        block_at(
            self.stages,
            self.r,
            &mut self.place,
            &mut self.neighbours,
            src,
            dst,
        )
    }
}
