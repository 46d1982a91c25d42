// 01, section 6: "A feed steps until stopped". The clock and the arrays are lent, the outputs that are due are written in one loop, and the samples that complete no
// sum go through the integrators at once.
ghost use Rattle.std.specs.Prelude.{◌≡◌, true, false, ◌+◌, ◌<◌, ◌≤◌, pos, length, take};
ghost use Rattle.integer.specs.Stages.{ran};
ghost use Rattle.nonrecursive.specs.EitherKind as E;
ghost use Rattle.nonrecursive.specs.declared.thinning.Thinning.TheVariants as thinning;
ghost use Rattle.chain.specs.Same.{Same};
ghost use Rattle.line.specs.Openings as L;
ghost use Rattle.line.specs.inner.Together as T;

use crate::alone::{feed_one, takes_one, thin_apart, waits_one};
use crate::batches::feed_batches;
use crate::sample::sample_in;
use crate::step::{due, sums_neighbours};
use crate::validity::Checked;
use chain::arrays::Arrays;
use chain::clock::Clock;
use chain::fixed::Fixed;
use integer::limits::MOST_STAGES;
use integer::stages::{integrate, run};
use nonrecursive::Thinning;
use refusal::Moved;

// The samples that complete no sum go through the integrators. Every sample changes neighbours, so of a line that sums these none are taken at once.
// The kind as a bool, as in `sample_in`.
#[tactic(auto, unfolding(integer::specs::Stages::ran))]
fn at_once(
    by_neighbours: bool,
    f: Fixed,
    sample_counter: &mut usize,
    integrators: &mut [i32; MOST_STAGES],
    samples: &[i32],
) -> usize
    requires { sample_counter.old < f.settings.r }
    ensures kind { 0 < result → by_neighbours ≡ false }
    ensures fits { (result ≤ length samples.now) × (sample_counter.new < f.settings.r) }
    ensures counter { sample_counter.new ≡ sample_counter.old + result }
    ensures made { integrators.new ≡ (ran f.settings.stages integrators.old (pos 0) (take result samples.now)).state }
{
    if by_neighbours {
        return 0;
    }
    let count = samples.len().min(f.settings.r - 1 - *sample_counter);
    if count == 0 {
        return 0;
    }
    run(f.settings.stages, integrators, &samples[..count]);
    *sample_counter += count;
    count
}

// Steps until stopped, a copy of the loop for each kind of a line, which a const parameter has as a bool. No range: a turn takes as many samples as complete a sum.
fn feed_on<const BY_NEIGHBOURS: bool>(
    own: Checked,
    clock: &mut Clock,
    lent: &mut Arrays<'_>,
    samples: &[i32],
    out: &mut [f32],
) -> Moved
    requires fine { L.valid (T.line_held own.fixed clock.old lent.old) ≡ true }
    requires kind { E.kind_of BY_NEIGHBOURS ≡ own.fixed.settings.thinning }
    ensures same { Same lent.old lent.new }
    ensures ran { let before = T.line_held own.fixed clock.old lent.old in
        T.RanTo before samples.now out.old out.new result.taken result.written (T.line_held own.fixed clock.new lent.new) }
{
    let f = own.fixed;
    let setting = f.settings.resampler();
    let mut taken: usize = 0;
    let mut written: usize = 0;
    loop {
        let due = setting.write_due(lent.prototype, lent.delay, clock.mu, out, written);
        clock.mu = due.mu;
        written = due.written;
        if out.len() <= written {
            break;
        }
        let count = at_once(
            BY_NEIGHBOURS,
            f,
            &mut clock.sample_counter,
            lent.integrators,
            &samples[taken..],
        );
        taken += count;
        if samples.len() <= taken {
            break;
        }
        let x = samples[taken];
        taken += 1;
        if let Some(y) = sample_in(BY_NEIGHBOURS, own, clock, lent, x) {
            out[written] = y;
            written += 1;
        }
    }
    Moved { taken, written }
}

// Steps until stopped, by the kind of the line.
fn feed_singly(
    own: Checked,
    clock: &mut Clock,
    lent: &mut Arrays<'_>,
    samples: &[i32],
    out: &mut [f32],
) -> Moved
    requires { L.valid (T.line_held own.fixed clock.old lent.old) ≡ true }
    ensures same { Same lent.old lent.new }
    ensures ran { let before = T.line_held own.fixed clock.old lent.old in
        T.RanTo before samples.now out.old out.new result.taken result.written (T.line_held own.fixed clock.new lent.new) }
{
    match own.fixed.settings.thinning {
        Thinning::Integrators => feed_on::<false>(own, clock, lent, samples, out),
        Thinning::Neighbours => feed_on::<true>(own, clock, lent, samples, out),
    }
}

// Whether a feed of so many samples only integrates them: a place is left, no output is due, and they complete no sum of integrators.
fn only_integrates(f: Fixed, clock: Clock, count: usize, places: usize) -> bool
    ensures { result ≡ true → (f.settings.thinning ≡ thinning.Integrators) × (0 < places) × (T.due_at f clock.mu ≡ false) × (clock.sample_counter + count < f.settings.r) }
{
    f.settings.thinning == Thinning::Integrators
        && 0 < places
        && !due(f, clock.mu)
        && clock.sample_counter < f.settings.r
        && count < f.settings.r - clock.sample_counter
}

// All samples go through the integrators, and complete no sum. One by itself, since `run` makes a road for many ready.
fn integrate_all(
    f: Fixed,
    sample_counter: &mut usize,
    integrators: &mut [i32; MOST_STAGES],
    samples: &[i32],
)
    requires { sample_counter.old + length samples.now < f.settings.r }
    ensures counter { sample_counter.new ≡ sample_counter.old + length samples.now }
    ensures made { integrators.new ≡ (ran f.settings.stages integrators.old (pos 0) samples.now).state }
{
    if samples.len() == 1 {
        integrate(f.settings.stages, integrators, samples[0]);
        *sample_counter += 1;
        return;
    }
    run(f.settings.stages, integrators, samples);
    *sample_counter += samples.len();
}

// Steps until stopped: one sample alone, or by batches as long as one is worth it, and the rest sample by sample, if anything is left.
fn feed_through(
    own: Checked,
    clock: &mut Clock,
    lent: &mut Arrays<'_>,
    samples: &[i32],
    out: &mut [f32],
) -> Moved
    requires { L.valid (T.line_held own.fixed clock.old lent.old) ≡ true }
    ensures same { Same lent.old lent.new }
    ensures ran { let before = T.line_held own.fixed clock.old lent.old in
        T.RanTo before samples.now out.old out.new result.taken result.written (T.line_held own.fixed clock.new lent.new) }
{
    if takes_one(own.fixed, clock.mu, samples.len(), out.len()) {
        return feed_one(own, clock, lent, samples, out);
    }
    let begun = feed_batches(own, clock, lent, samples, out);
    if samples.len() <= begun.taken && !due(own.fixed, clock.mu) {
        return begun;
    }
    let rest = feed_singly(
        own,
        clock,
        lent,
        &samples[begun.taken..],
        &mut out[begun.written..],
    );
    Moved {
        taken: begun.taken + rest.taken,
        written: begun.written + rest.written,
    }
}

// The same, the clock and the references put into places of their own: so a feed that only integrates, beside which this one is inlined, keeps its clock in registers
// and puts no array's reference into memory.
fn feed_apart(
    own: Checked,
    clock: &mut Clock,
    lent: &mut Arrays<'_>,
    samples: &[i32],
    out: &mut [f32],
) -> Moved
    requires { L.valid (T.line_held own.fixed clock.old lent.old) ≡ true }
    ensures same { Same lent.old lent.new }
    ensures ran { let before = T.line_held own.fixed clock.old lent.old in
        T.RanTo before samples.now out.old out.new result.taken result.written (T.line_held own.fixed clock.new lent.new) }
{
    let mut time = *clock;
    let mut arrays = Arrays {
        integrators: &mut *lent.integrators,
        combs: &mut *lent.combs,
        neighbours: &mut *lent.neighbours,
        taps: lent.taps,
        fir_delay: &mut *lent.fir_delay,
        delays: &mut *lent.delays,
        held: &mut *lent.held,
        counts: &mut *lent.counts,
        delay: &mut *lent.delay,
        prototype: lent.prototype,
    };
    let moved = feed_through(own, &mut time, &mut arrays, samples, out);
    *clock = time;
    moved
}

// Steps until stopped. A feed that only integrates, and one of a sample that neighbours only keep, stand apart: they cost little else.
pub(crate) fn feed_by(
    own: Checked,
    clock: &mut Clock,
    lent: &mut Arrays<'_>,
    samples: &[i32],
    out: &mut [f32],
) -> Moved
    requires { L.valid (T.line_held own.fixed clock.old lent.old) ≡ true }
    ensures same { Same lent.old lent.new }
    ensures ran { let before = T.line_held own.fixed clock.old lent.old in
        T.RanTo before samples.now out.old out.new result.taken result.written (T.line_held own.fixed clock.new lent.new) }
{
    let f = own.fixed;
    if only_integrates(f, *clock, samples.len(), out.len()) {
        integrate_all(f, &mut clock.sample_counter, lent.integrators, samples);
        return Moved {
            taken: samples.len(),
            written: 0,
        };
    }
    if waits_one(f, *clock, samples.len(), out.len()) {
        clock.sample_counter = thin_apart(
            sums_neighbours(f.settings.thinning),
            f.settings.stages,
            f.settings.r,
            clock.sample_counter,
            lent.integrators,
            lent.combs,
            lent.neighbours,
            samples[0],
        );
        return Moved {
            taken: 1,
            written: 0,
        };
    }
    feed_apart(own, clock, lent, samples, out)
}
