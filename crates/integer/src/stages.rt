// Integrators and combs in a row, over lent arrays: the leaves of both CIC converters.
ghost use Rattle.std.specs.Prelude.{◌≡◌, ◌++◌, take, drop, ℤ, pos};
ghost use Rattle.integer.specs.Stages.{row, sum32, kept, difference32, integrated, combed, ran};

use crate::limits::MOST_STAGES;

// A stage of a row: what it keeps of its state and a value, and what it hands on.
pub trait Stage {
    ghost keep: { ℤ → ℤ → ℤ };

    ghost out: { ℤ → ℤ → ℤ };

    fn pass(state: i32, val: i32) -> (i32, i32)
        ensures { (result.0 ≡ keep state val) × (result.1 ≡ out state val) };
}

// It adds, keeps the sum and hands it on.
pub struct Integrator;

impl Stage for Integrator {
    ghost keep = { sum32 };

    ghost out = { sum32 };

    fn pass(state: i32, val: i32) -> (i32, i32) {
        let sum = state.wrapping_add(val);
        (sum, sum)
    }
}

// A comb: it keeps the value, and hands on by how much it differs from the one before.
pub struct Differentiator;

impl Stage for Differentiator {
    ghost keep = { kept };

    ghost out = { difference32 };

    fn pass(state: i32, val: i32) -> (i32, i32) {
        (val, val.wrapping_sub(state))
    }
}

// A value goes through the first `stages` of a row.
pub fn pass<S: Stage>(stages: usize, states: &mut [i32], input: i32) -> i32
    ensures { (states.new ≡ (row S.keep S.out stages states.old input).state) × (result ≡ (row S.keep S.out stages states.old input).val) }
{
    let used = stages.min(states.len());
    let front = &mut states[..used];
    let mut val = input;
    for state in front.iter_mut() {
        let (kept, handed_on) = S::pass(*state, val);
        *state = kept;
        val = handed_on;
    }
    val
}

#[tactic(auto, unfolding(crate::specs::Stages::integrated))]
pub fn integrate(stages: usize, integrators: &mut [i32; MOST_STAGES], input: i32) -> i32
    ensures { (integrators.new ≡ (integrated stages integrators.old input).state) × (result ≡ (integrated stages integrators.old input).val) }
{
    pass::<Integrator>(stages, integrators, input)
}

#[tactic(auto, unfolding(crate::specs::Stages::combed))]
pub fn comb(stages: usize, combs: &mut [i32; MOST_STAGES], input: i32) -> i32
    ensures { (combs.new ≡ (combed stages combs.old input).state) × (result ≡ (combed stages combs.old input).val) }
{
    pass::<Differentiator>(stages, combs, input)
}

// All of the samples go through the integrators; the last one's value comes back, 0 where there is none.
fn run_on(stages: usize, integrators: &mut [i32; MOST_STAGES], samples: &[i32]) -> i32
    ensures { let passed = ran stages integrators.old (pos 0) samples.now in
        (integrators.new ≡ passed.state) × (result ≡ passed.val) }
{
    let mut val = 0;
    for sample in samples {
        val = integrate(stages, integrators, *sample);
    }
    val
}

// The same of a number of stages that the compiler knows: it unrolls them, and holds the integrators in registers.
fn run_of<const N: usize>(integrators: &mut [i32; MOST_STAGES], samples: &[i32]) -> i32
    ensures { let passed = ran N integrators.old (pos 0) samples.now in
        (integrators.new ≡ passed.state) × (result ≡ passed.val) }
{
    let mut held = *integrators;
    let val = run_on(N, &mut held, samples);
    *integrators = held;
    val
}

pub fn run(stages: usize, integrators: &mut [i32; MOST_STAGES], samples: &[i32]) -> i32
    ensures { let passed = ran stages integrators.old (pos 0) samples.now in
        (integrators.new ≡ passed.state) × (result ≡ passed.val) }
{
    match stages {
        1 => run_of::<1>(integrators, samples),
        2 => run_of::<2>(integrators, samples),
        3 => run_of::<3>(integrators, samples),
        4 => run_of::<4>(integrators, samples),
        5 => run_of::<5>(integrators, samples),
        6 => run_of::<6>(integrators, samples),
        7 => run_of::<7>(integrators, samples),
        8 => run_of::<8>(integrators, samples),
        _ => run_on(stages, integrators, samples),
    }
}

// The first `stages` of held go to the front of the lent array, each by itself; the places behind them stay. By the place's number: behind `take` a proof sees an
// iterator in place of it.
pub(crate) fn write_back(stages: usize, held: [i32; MOST_STAGES], state: &mut [i32; MOST_STAGES])
    ensures { state.new ≡ take stages held ++ drop stages state.old }
{
    for i in 0..stages.min(MOST_STAGES) {
        state[i] = held[i];
    }
}
