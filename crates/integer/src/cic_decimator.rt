// 01, section 1: the cascaded integrator-comb decimator.
ghost use Rattle.std.specs.Prelude.{◌≡◌, ◌+◌, ◌-◌, ◌*◌, ◌^◌, ◌<◌, true, cond, IfOk, None, length, pos, nat_lt};
ghost use Rattle.theory.specs.Sections.{state, outs};
ghost use Rattle.refusal.specs.Outcome.{number_in, none_moved, told, told_on, told_opened};
ghost use Rattle.integer.specs.Opening.{opening, on_state};
ghost use Rattle.integer.specs.Gain.{gain_of, gain_bits, Least};
ghost use Rattle.integer.specs.Stages.{combed, ran};
ghost use Rattle.integer.specs.ExactSums.{ExactSums, ExactWithin, exact_range, no_ends};
ghost use Rattle.integer.specs.CicDecimator as D;

use crate::exact_range::{Ends, range_of};
use crate::gain::{bits_of, gain_of, scaled, scaling_bits};
use crate::limits::{MOST_STAGES, Settings, factor_ok, settings_answer, stages_ok};
use crate::stages::{comb, integrate, run};
use refusal::{Moved, Refusal};

#[derive(Clone, Copy)]
pub struct CicDecimator {
    pub stages: usize,
    pub r: usize,
    pub integrator_state: [i32; MOST_STAGES],
    pub comb_state: [i32; MOST_STAGES],
    pub sample_counter: usize,
}

// Whether a call on a state with these numbers is not refused by 15.
#[tactic(auto, unfolding(crate::specs::CicDecimator::valid_at))]
pub fn valid(stages: usize, r: usize, sample_counter: usize) -> bool
    ensures { result ≡ D.valid_at stages r sample_counter }
{
    stages_ok(stages) && factor_ok(r) && sample_counter < r
}

// Row 15.
fn state_answer(stages: usize, r: usize, sample_counter: usize) -> Result<(), Refusal>
    ensures { number_in result ≡ cond (D.valid_at stages r sample_counter) 0 15 }
{
    if !valid(stages, r, sample_counter) {
        return Err(Refusal::State);
    }
    Ok(())
}

// Whether the next sample completes no sum.
pub fn waits(sample_counter: usize, r: usize) -> bool
    ensures { result ≡ nat_lt (sample_counter + 1) r }
{
    sample_counter < r && sample_counter + 1 < r
}

// One sample, the fields lent. A leaf for the line, which keeps them apart and has looked at the numbers: it refuses nothing.
#[tactic(auto, unfolding(crate::specs::CicDecimator::decimator))]
pub fn sample_at(
    stages: usize,
    r: usize,
    sample_counter: &mut usize,
    integrators: &mut [i32; MOST_STAGES],
    combs: &mut [i32; MOST_STAGES],
    input: i32,
) -> Option<i32>
    ensures out { result ≡ (D.decimator).out (D.decimator_of stages r integrators.old combs.old sample_counter.old) input }
    ensures next { D.decimator_of stages r integrators.new combs.new sample_counter.new ≡ (D.decimator).next (D.decimator_of stages r integrators.old combs.old sample_counter.old) input }
{
    let val = integrate(stages, integrators, input);
    if waits(*sample_counter, r) {
        *sample_counter += 1;
        return None;
    }
    *sample_counter = 0;
    Some(comb(stages, combs, val))
}

// The samples of a sum go through the integrators, and the value of the last one through the combs. The last stands apart: where r is 1 there is no other.
fn sum_of(
    stages: usize,
    integrators: &mut [i32; MOST_STAGES],
    combs: &mut [i32; MOST_STAGES],
    samples: &[i32],
) -> i32
    requires { 0 < length samples.now }
    ensures { let passed = ran stages integrators.old (pos 0) samples.now in
        let handed_on = combed stages combs.old passed.val in
        (integrators.new ≡ passed.state) × (combs.new ≡ handed_on.state) × (result ≡ handed_on.val) }
{
    let last = samples.len() - 1;
    run(stages, integrators, &samples[..last]);
    let val = integrate(stages, integrators, samples[last]);
    comb(stages, combs, val)
}

// A sum of r samples for each place of dst. The stages are held in locals. The compiler knows the number of stages: it unrolls them, and holds them in registers. The
// samples are split off what is left: of places that are zipped with chunks_exact a proof knows the length alone.
fn whole_sums_of<const N: usize>(
    r: usize,
    integrators: &mut [i32; MOST_STAGES],
    combs: &mut [i32; MOST_STAGES],
    src: &[i32],
    dst: &mut [i32],
)
    requires { (0 < r) × (length src.now ≡ length dst.old * r) }
    ensures sums { dst.new ≡ outs D.decimator (D.decimator_of N r integrators.old combs.old 0) src.now }
    ensures state { D.decimator_of N r integrators.new combs.new 0 ≡ state D.decimator (D.decimator_of N r integrators.old combs.old 0) src.now }
{
    let mut held = *integrators;
    let mut kept = *combs;
    let mut left = src;
    for place in dst.iter_mut() {
        let (samples, behind) = left.split_at(r);
        *place = sum_of(N, &mut held, &mut kept, samples);
        left = behind;
    }
    *integrators = held;
    *combs = kept;
}

// The same of one stage. Where a sum has few samples, a loop over them costs more than they do, so r is a constant in the first arms.
fn whole_sums_of_one(
    r: usize,
    integrators: &mut [i32; MOST_STAGES],
    combs: &mut [i32; MOST_STAGES],
    src: &[i32],
    dst: &mut [i32],
)
    requires { (0 < r) × (length src.now ≡ length dst.old * r) }
    ensures sums { dst.new ≡ outs D.decimator (D.decimator_of 1 r integrators.old combs.old 0) src.now }
    ensures state { D.decimator_of 1 r integrators.new combs.new 0 ≡ state D.decimator (D.decimator_of 1 r integrators.old combs.old 0) src.now }
{
    match r {
        2 => whole_sums_of::<1>(2, integrators, combs, src, dst),
        3 => whole_sums_of::<1>(3, integrators, combs, src, dst),
        4 => whole_sums_of::<1>(4, integrators, combs, src, dst),
        5 => whole_sums_of::<1>(5, integrators, combs, src, dst),
        6 => whole_sums_of::<1>(6, integrators, combs, src, dst),
        7 => whole_sums_of::<1>(7, integrators, combs, src, dst),
        8 => whole_sums_of::<1>(8, integrators, combs, src, dst),
        _ => whole_sums_of::<1>(r, integrators, combs, src, dst),
    }
}

// The same of any stages: each arm makes their number a constant, for which the compiler unrolls the body.
fn whole_sums(
    settings: Settings,
    integrators: &mut [i32; MOST_STAGES],
    combs: &mut [i32; MOST_STAGES],
    src: &[i32],
    dst: &mut [i32],
)
    requires { length src.now ≡ length dst.old * settings.r }
    ensures sums { dst.new ≡ outs D.decimator (D.decimator_of settings.stages settings.r integrators.old combs.old 0) src.now }
    ensures state { D.decimator_of settings.stages settings.r integrators.new combs.new 0 ≡ state D.decimator (D.decimator_of settings.stages settings.r integrators.old combs.old 0) src.now }
{
    let Settings { stages, r, .. } = settings;
    if dst.is_empty() {
        return;
    }
    match stages {
        1 => whole_sums_of_one(r, integrators, combs, src, dst),
        2 => whole_sums_of::<2>(r, integrators, combs, src, dst),
        3 => whole_sums_of::<3>(r, integrators, combs, src, dst),
        4 => whole_sums_of::<4>(r, integrators, combs, src, dst),
        5 => whole_sums_of::<5>(r, integrators, combs, src, dst),
        6 => whole_sums_of::<6>(r, integrators, combs, src, dst),
        7 => whole_sums_of::<7>(r, integrators, combs, src, dst),
        _ => whole_sums_of::<8>(r, integrators, combs, src, dst),
    }
}

// A sum for each place of dst. One that has begun stands apart: all others have r samples, so that the loop over them looks at that number once.
fn sums(
    settings: Settings,
    sample_counter: usize,
    integrators: &mut [i32; MOST_STAGES],
    combs: &mut [i32; MOST_STAGES],
    src: &[i32],
    dst: &mut [i32],
)
    requires { (sample_counter < settings.r) × (length src.now ≡ length dst.old * settings.r - sample_counter) }
    ensures sums { dst.new ≡ outs D.decimator (D.decimator_of settings.stages settings.r integrators.old combs.old sample_counter) src.now }
    ensures state { D.decimator_of settings.stages settings.r integrators.new combs.new (sample_counter + length src.now - length dst.old * settings.r) ≡ state D.decimator (D.decimator_of settings.stages settings.r integrators.old combs.old sample_counter) src.now }
{
    if sample_counter == 0 {
        whole_sums(settings, integrators, combs, src, dst);
        return;
    }
    if dst.is_empty() {
        return;
    }
    let first = settings.r - sample_counter;
    dst[0] = sum_of(settings.stages, integrators, combs, &src[..first]);
    whole_sums(settings, integrators, combs, &src[first..], &mut dst[1..]);
}

// A block, the fields lent.
#[tactic(auto, unfolding(crate::specs::CicDecimator::block, crate::specs::CicDecimator::block_span))]
pub fn block_at(
    stages: usize,
    r: usize,
    sample_counter: &mut usize,
    integrators: &mut [i32; MOST_STAGES],
    combs: &mut [i32; MOST_STAGES],
    src: &[i32],
    dst: &mut [i32],
) -> Result<Moved, Refusal>
    ensures answer { told_on none_moved result (D.decimator_of stages r integrators.new combs.new sample_counter.new) ≡ D.block (D.decimator_of stages r integrators.old combs.old sample_counter.old) src.now (length dst.old) }
    ensures span { dst.new ≡ D.block_span (D.decimator_of stages r integrators.old combs.old sample_counter.old) src.now dst.old }
{
    let counted = *sample_counter;
    state_answer(stages, r, counted)?;
    let written = dst.len().min((src.len() + counted) / r);
    let taken = (written * r).saturating_sub(counted);
    let settings = Settings { stages, r };
    sums(
        settings,
        counted,
        integrators,
        combs,
        &src[..taken],
        &mut dst[..written],
    );
    *sample_counter = counted + taken - written * r;
    if written == dst.len() {
        return Ok(Moved { taken, written });
    }
    run(stages, integrators, &src[taken..]);
    *sample_counter += src.len() - taken;
    Ok(Moved {
        taken: src.len(),
        written,
    })
}

// `CicDecimator::process_sample` for the C function, which is lent the state's fields: a sample does not pay for moving them.
#[tactic(auto, unfolding(crate::specs::CicDecimator::step))]
pub fn sample_lent(
    stages: usize,
    r: usize,
    sample_counter: &mut usize,
    integrators: &mut [i32; MOST_STAGES],
    combs: &mut [i32; MOST_STAGES],
    input: i32,
) -> Result<Option<i32>, Refusal>
    ensures answer { told_on None result (D.decimator_of stages r integrators.new combs.new sample_counter.new) ≡ D.step (D.decimator_of stages r integrators.old combs.old sample_counter.old) input }
{
    state_answer(stages, r, *sample_counter)?;
    Ok(sample_at(stages, r, sample_counter, integrators, combs, input))
}

// `CicDecimator::process_sample_scaled`, likewise. Refusal 3 is looked at on every call: it goes by the settings alone.
#[tactic(auto, unfolding(crate::specs::CicDecimator::scaled_step, crate::specs::CicDecimator::scaled_decimator, crate::specs::Gain::scaling_bits))]
pub fn scaled_sample_lent(
    stages: usize,
    r: usize,
    sample_counter: &mut usize,
    integrators: &mut [i32; MOST_STAGES],
    combs: &mut [i32; MOST_STAGES],
    input: i32,
) -> Result<Option<i32>, Refusal>
    ensures answer { told_on None result (D.decimator_of stages r integrators.new combs.new sample_counter.new) ≡ D.scaled_step (D.decimator_of stages r integrators.old combs.old sample_counter.old) input }
{
    state_answer(stages, r, *sample_counter)?;
    let bits = scaling_bits(stages, r)?;
    let sum = sample_at(stages, r, sample_counter, integrators, combs, input);
    Ok(sum.map(|sum| scaled(sum, bits)))
}

impl CicDecimator {
    // One that has taken nothing in yet. A refused opening leaves that of 0 and 0, which is zeros.
    pub fn fresh(stages: usize, r: usize) -> CicDecimator
        ensures { result ≡ D.fresh stages r }
    {
        CicDecimator {
            stages,
            r,
            integrator_state: [0; MOST_STAGES],
            comb_state: [0; MOST_STAGES],
            sample_counter: 0,
        }
    }

    // 01, section 1. The clause `stream` is Hogenauer's theorem, for every list of samples; `exact` says of which no sum wraps.
    #[tactic(auto, unfolding(crate::specs::Opening::opening, crate::specs::Opening::settings_number))]
    pub fn new(stages: usize, r: usize) -> Result<CicDecimator, Refusal>
        ensures answer { told_opened (D.fresh 0 0) result ≡ opening D.fresh stages r }
        ensures stream { IfOk result (D.Streams stages r) }
        ensures exact { IfOk result (λ d. ExactSums stages r (outs D.decimator d) (outs D.scaled_decimator d)) }
    {
        settings_answer(stages, r)?;
        Ok(CicDecimator::fresh(stages, r))
    }

    // r^N, held at 2^64 - 1.
    #[tactic(auto, unfolding(crate::specs::Opening::on_state))]
    pub fn gain(&self) -> Result<u64, Refusal>
        ensures answer { told 0 result ≡ on_state (D.valid self.now) (gain_of self.now.stages self.now.r) }
    {
        state_answer(self.stages, self.r, self.sample_counter)?;
        Ok(gain_of(self.stages, self.r))
    }

    // The least g with 2^g no less than the gain.
    #[tactic(auto, using(crate::proofs::Bits::gain_least), unfolding(crate::specs::Opening::on_state))]
    pub fn gain_bits(&self) -> Result<u32, Refusal>
        ensures answer { told 0 result ≡ on_state (D.valid self.now) (gain_bits self.now.stages self.now.r) }
        ensures least { IfOk result (Least (gain_of self.now.stages self.now.r)) }
    {
        Ok(bits_of(self.gain()?))
    }

    // The samples of which every sum is exact, from the state's opening on.
    #[tactic(auto, unfolding(crate::specs::ExactSums::exact_range))]
    pub fn exact_range(&self) -> Result<Ends, Refusal>
        ensures answer { told no_ends result ≡ exact_range (D.valid self.now) self.now.stages self.now.r }
        ensures exact { IfOk result (λ ends.
            let opened = D.fresh self.now.stages self.now.r in
            ExactWithin ends.least ends.greatest self.now.stages self.now.r (outs D.decimator opened) (outs D.scaled_decimator opened)) }
    {
        let CicDecimator {
            stages,
            r,
            sample_counter,
            ..
        } = *self;
        state_answer(stages, r, sample_counter)?;
        range_of(stages, r)
    }

    // 01 has two calls, this one and the scaled one: each hands the fields to the leaf of its name.
    pub fn process_sample(&mut self, input: i32) -> Result<Option<i32>, Refusal>
        ensures answer { told_on None result self.new ≡ D.step self.old input }
    {
        sample_lent(
            self.stages,
            self.r,
            &mut self.sample_counter,
            &mut self.integrator_state,
            &mut self.comb_state,
            input,
        )
    }

    pub fn process_sample_scaled(&mut self, input: i32) -> Result<Option<i32>, Refusal>
        ensures answer { told_on None result self.new ≡ D.scaled_step self.old input }
    {
        scaled_sample_lent(
            self.stages,
            self.r,
            &mut self.sample_counter,
            &mut self.integrator_state,
            &mut self.comb_state,
            input,
        )
    }

    // Samples of src become sums in dst while dst has a place.
    pub fn process_block(&mut self, src: &[i32], dst: &mut [i32]) -> Result<Moved, Refusal>
        ensures answer { told_on none_moved result self.new ≡ D.block self.old src.now (length dst.old) }
        ensures span { dst.new ≡ D.block_span self.old src.now dst.old }
    {
        block_at(
            self.stages,
            self.r,
            &mut self.sample_counter,
            &mut self.integrator_state,
            &mut self.comb_state,
            src,
            dst,
        )
    }
}
