// 01, section 7: the cascaded integrator-comb interpolator.
ghost use Rattle.std.specs.Prelude.{◌≡◌, ◌-◌, ◌*◌, ◌≤◌, ◌<◌, cond, IfOk, ◌++◌, length, take, drop, nat_le};
ghost use Rattle.std.specs.Option.{option_map_or};
ghost use Rattle.refusal.specs.Outcome.{number_in, none_moved, told, told_on, told_opened};
ghost use Rattle.integer.specs.Opening.{opening, on_state};
ghost use Rattle.integer.specs.Gain.{gain_of, gain_bits, Least};
ghost use Rattle.integer.specs.Stages.{integrated, combed};
ghost use Rattle.integer.specs.CicInterpolator as I;

use crate::gain::{bits_of, gain_of};
use crate::limits::{MOST_STAGES, Settings, factor_ok, settings_answer, stages_ok};
use crate::stages::{comb, integrate, write_back};
use refusal::{Moved, Refusal};

#[derive(Clone, Copy)]
pub struct CicInterpolator {
    pub stages: usize,
    pub r: usize,
    pub comb_state: [i32; MOST_STAGES],
    pub integrator_state: [i32; MOST_STAGES],
}

// Row 15.
#[tactic(auto, unfolding(crate::specs::CicInterpolator::valid_at))]
fn state_answer(stages: usize, r: usize) -> Result<(), Refusal>
    ensures { number_in result ≡ cond (I.valid_at stages r) 0 15 }
{
    if !stages_ok(stages) || !factor_ok(r) {
        return Err(Refusal::State);
    }
    Ok(())
}

// Row 4.
fn span_answer(places: usize, r: usize) -> Result<(), Refusal>
    ensures { number_in result ≡ cond (nat_le r places) 0 4 }
{
    if places < r {
        return Err(Refusal::Span);
    }
    Ok(())
}

// The integrators' outputs, as many as there are places: input goes in, and then zeros.
fn fill_on(stages: usize, integrators: &mut [i32; MOST_STAGES], input: i32, places: &mut [i32])
    ensures { let filled = I.filled stages integrators.old input (length places.old) in
        (integrators.new ≡ filled.state) × (places.new ≡ filled.outs) }
{
    let mut val = input;
    for place in places.iter_mut() {
        *place = integrate(stages, integrators, val);
        val = 0;
    }
}

// The same of a number of stages that the compiler knows: it unrolls them, and holds the integrators in registers. Only the stages in use are written back, one by
// one: the next sample reads them so, and a load that is wider than the stores before it waits for them.
fn fill_of<const N: usize>(integrators: &mut [i32; MOST_STAGES], input: i32, places: &mut [i32])
    ensures { let filled = I.filled N integrators.old input (length places.old) in
        (integrators.new ≡ filled.state) × (places.new ≡ filled.outs) }
{
    let mut held = *integrators;
    fill_on(N, &mut held, input, places);
    write_back(N, held, integrators);
}

fn fill(stages: usize, integrators: &mut [i32; MOST_STAGES], input: i32, places: &mut [i32])
    ensures { let filled = I.filled stages integrators.old input (length places.old) in
        (integrators.new ≡ filled.state) × (places.new ≡ filled.outs) }
{
    match stages {
        1 => fill_of::<1>(integrators, input, places),
        2 => fill_of::<2>(integrators, input, places),
        3 => fill_of::<3>(integrators, input, places),
        4 => fill_of::<4>(integrators, input, places),
        5 => fill_of::<5>(integrators, input, places),
        6 => fill_of::<6>(integrators, input, places),
        7 => fill_of::<7>(integrators, input, places),
        8 => fill_of::<8>(integrators, input, places),
        _ => fill_on(stages, integrators, input, places),
    }
}

// One sample, the fields lent. Refusals 15, 4. The combs stand before the arms of `fill`: inside them the compiler works their differences into the sums of every
// later output.
#[tactic(auto, unfolding(crate::specs::CicInterpolator::sample, crate::specs::CicInterpolator::sample_span))]
pub fn sample_at(
    stages: usize,
    r: usize,
    combs: &mut [i32; MOST_STAGES],
    integrators: &mut [i32; MOST_STAGES],
    input: i32,
    out_buf: &mut [i32],
) -> Result<usize, Refusal>
    ensures answer { told_on 0 result (I.interpolator_of stages r combs.new integrators.new) ≡ I.sample (I.interpolator_of stages r combs.old integrators.old) input out_buf.old }
    ensures span { out_buf.new ≡ I.sample_span (I.interpolator_of stages r combs.old integrators.old) input out_buf.old }
{
    state_answer(stages, r)?;
    span_answer(out_buf.len(), r)?;
    let val = comb(stages, combs, input);
    fill(stages, integrators, val, &mut out_buf[..r]);
    Ok(r)
}

// A sample, where there is one: through the combs, and into the first integrator.
fn enter(
    stages: usize,
    combs: &mut [i32; MOST_STAGES],
    integrators: &mut [i32; MOST_STAGES],
    coming: Option<i32>,
)
    ensures combs { combs.new ≡ option_map_or (λ x. (combed stages combs.old x).state) coming combs.old }
    ensures integrators { integrators.new ≡ option_map_or (λ x. (integrated 1 integrators.old (combed stages combs.old x).val).state) coming integrators.old }
{
    if let Some(sample) = coming {
        let val = comb(stages, combs, sample);
        integrate(1, integrators, val);
    }
}

// The outputs of all samples, in front of dst, the integrators held in a local. A sample goes into the first one by itself: its r outputs are then those of zeros,
// which leave that one alone. It enters a turn ahead, or else the compiler works the combs' differences into the sums of the outputs. The combs stay where they are,
// for they are used once a sample and the integrators want the registers. The compiler knows the number of stages, and unrolls them. By the sample's number: of the
// places behind chunks_mut a proof knows the lengths alone.
fn raise_of<const N: usize>(
    r: usize,
    combs: &mut [i32; MOST_STAGES],
    integrators: &mut [i32; MOST_STAGES],
    src: &[i32],
    dst: &mut [i32],
)
    requires { (0 < N) × (0 < r) × (length src.now * r ≤ length dst.old) }
    ensures state { I.interpolator_of N r combs.new integrators.new ≡ I.state (I.interpolator_of N r combs.old integrators.old) src.now }
    ensures span { dst.new ≡ I.outs (I.interpolator_of N r combs.old integrators.old) src.now ++ drop (length src.now * r) dst.old }
{
    let mut sums = *integrators;
    let mut written = 0;
    enter(N, combs, &mut sums, src.first().copied());
    for taken in 0..src.len() {
        fill_on(N, &mut sums, 0, &mut dst[written..written + r]);
        written += r;
        enter(N, combs, &mut sums, src.get(taken + 1).copied());
    }
    write_back(N, sums, integrators);
}

// The same of one stage. Its r outputs are one value: where they are few, a loop costs more than they do, so r is a constant in the first arms.
fn raise_one(
    r: usize,
    combs: &mut [i32; MOST_STAGES],
    integrators: &mut [i32; MOST_STAGES],
    src: &[i32],
    dst: &mut [i32],
)
    requires { (0 < r) × (length src.now * r ≤ length dst.old) }
    ensures state { I.interpolator_of 1 r combs.new integrators.new ≡ I.state (I.interpolator_of 1 r combs.old integrators.old) src.now }
    ensures span { dst.new ≡ I.outs (I.interpolator_of 1 r combs.old integrators.old) src.now ++ drop (length src.now * r) dst.old }
{
    match r {
        1 => raise_of::<1>(1, combs, integrators, src, dst),
        2 => raise_of::<1>(2, combs, integrators, src, dst),
        3 => raise_of::<1>(3, combs, integrators, src, dst),
        4 => raise_of::<1>(4, combs, integrators, src, dst),
        _ => raise_of::<1>(r, combs, integrators, src, dst),
    }
}

// The same of any stages: each arm makes their number a constant, for which the compiler unrolls the body.
fn raise(
    settings: Settings,
    combs: &mut [i32; MOST_STAGES],
    integrators: &mut [i32; MOST_STAGES],
    src: &[i32],
    dst: &mut [i32],
)
    requires { length src.now * settings.r ≤ length dst.old }
    ensures state { I.interpolator_of settings.stages settings.r combs.new integrators.new ≡ I.state (I.interpolator_of settings.stages settings.r combs.old integrators.old) src.now }
    ensures span { dst.new ≡ I.outs (I.interpolator_of settings.stages settings.r combs.old integrators.old) src.now ++ drop (length src.now * settings.r) dst.old }
{
    let Settings { stages, r, .. } = settings;
    match stages {
        1 => raise_one(r, combs, integrators, src, dst),
        2 => raise_of::<2>(r, combs, integrators, src, dst),
        3 => raise_of::<3>(r, combs, integrators, src, dst),
        4 => raise_of::<4>(r, combs, integrators, src, dst),
        5 => raise_of::<5>(r, combs, integrators, src, dst),
        6 => raise_of::<6>(r, combs, integrators, src, dst),
        7 => raise_of::<7>(r, combs, integrators, src, dst),
        _ => raise_of::<8>(r, combs, integrators, src, dst),
    }
}

// A block, the fields lent. Refusals 15, 4.
#[tactic(auto, using(crate::proofs::Raising::block_is), unfolding(crate::specs::CicInterpolator::block, crate::specs::CicInterpolator::block_outs))]
pub fn block_at(
    stages: usize,
    r: usize,
    combs: &mut [i32; MOST_STAGES],
    integrators: &mut [i32; MOST_STAGES],
    src: &[i32],
    dst: &mut [i32],
) -> Result<Moved, Refusal>
    ensures answer { told_on none_moved result (I.interpolator_of stages r combs.new integrators.new) ≡ I.block (I.interpolator_of stages r combs.old integrators.old) src.now (length dst.old) }
    ensures span { dst.new ≡ I.block_span (I.interpolator_of stages r combs.old integrators.old) src.now dst.old }
{
    state_answer(stages, r)?;
    span_answer(dst.len(), r)?;
    let taken = src.len().min(dst.len() / r);
    let settings = Settings { stages, r };
    raise(settings, combs, integrators, &src[..taken], dst);
    Ok(Moved {
        taken,
        written: taken * r,
    })
}

// The methods stand beside CicDecimator's as NonrecursiveDecimator's do: a trait over them would ask each for its section, its validity and its settings first.
impl CicInterpolator {
    // One that has taken nothing in yet. A refused opening leaves that of 0 and 0, which is zeros.
    pub fn fresh(stages: usize, r: usize) -> CicInterpolator
        ensures { result ≡ I.fresh stages r }
    {
        CicInterpolator {
            stages,
            r,
            comb_state: [0; MOST_STAGES],
            integrator_state: [0; MOST_STAGES],
        }
    }

    // The clause `stream` is the dual of Hogenauer's theorem, for every list of samples.
    #[tactic(auto, unfolding(crate::specs::Opening::opening, crate::specs::Opening::settings_number))]
    pub fn new(stages: usize, r: usize) -> Result<CicInterpolator, Refusal>
        ensures answer { told_opened (I.fresh 0 0) result ≡ opening I.fresh stages r }
        ensures stream { IfOk result (I.Streams stages r) }
    {
        settings_answer(stages, r)?;
        Ok(CicInterpolator::fresh(stages, r))
    }

    // r^(N - 1), held at 2^64 - 1.
    #[tactic(auto, using(crate::proofs::Within::interpolator_stages), unfolding(crate::specs::Opening::on_state))]
    pub fn gain(&self) -> Result<u64, Refusal>
        ensures answer { told 0 result ≡ on_state (I.valid self.now) (gain_of (self.now.stages - 1) self.now.r) }
    {
        state_answer(self.stages, self.r)?;
        Ok(gain_of(self.stages - 1, self.r))
    }

    // The least g with 2^g no less than the gain.
    #[tactic(auto, using(crate::proofs::Bits::gain_least), unfolding(crate::specs::Opening::on_state))]
    pub fn gain_bits(&self) -> Result<u32, Refusal>
        ensures answer { told 0 result ≡ on_state (I.valid self.now) (gain_bits (self.now.stages - 1) self.now.r) }
        ensures least { IfOk result (Least (gain_of (self.now.stages - 1) self.now.r)) }
    {
        Ok(bits_of(self.gain()?))
    }

    // One sample gives r outputs, in front of out_buf.
    pub fn process_sample(&mut self, input: i32, out_buf: &mut [i32]) -> Result<usize, Refusal>
        ensures answer { told_on 0 result self.new ≡ I.sample self.old input out_buf.old }
        ensures span { out_buf.new ≡ I.sample_span self.old input out_buf.old }
    {
        sample_at(
            self.stages,
            self.r,
            &mut self.comb_state,
            &mut self.integrator_state,
            input,
            out_buf,
        )
    }

    // The samples of src, as many as dst has r places for.
    pub fn process_block(&mut self, src: &[i32], dst: &mut [i32]) -> Result<Moved, Refusal>
        ensures answer { told_on none_moved result self.new ≡ I.block self.old src.now (length dst.old) }
        ensures span { dst.new ≡ I.block_span self.old src.now dst.old }
    {
        block_at(
            self.stages,
            self.r,
            &mut self.comb_state,
            &mut self.integrator_state,
            src,
            dst,
        )
    }
}
