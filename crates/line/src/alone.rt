// 01, section 6: "A feed steps until stopped", of one sample alone where no output is due: it is taken, and the outputs that are due then are written. Apart from the
// loops of other feeds, which make ready for many turns what a turn wants.
ghost use Rattle.std.specs.Prelude.{◌≡◌, true, false, [], ◌+◌, ◌<◌, length};
ghost use Rattle.nonrecursive.specs.EitherKind as E;
ghost use Rattle.nonrecursive.specs.declared.thinning.Thinning.TheVariants as thinning;
ghost use Rattle.chain.specs.Same.{Same};
ghost use Rattle.line.specs.Openings as L;
ghost use Rattle.line.specs.inner.Together as T;

use crate::sample::sample_in;
use crate::step::{due, sums_neighbours};
use crate::validity::Checked;
use chain::arrays::Arrays;
use chain::clock::Clock;
use chain::fixed::Fixed;
use integer::limits::MOST_STAGES;
use nonrecursive::Thinning;
use nonrecursive::nonrecursive_decimator::MOST_NEIGHBOURS;
use nonrecursive::thinning::thin_at;
use refusal::Moved;

// Whether a feed takes one sample and no output is due before: a place is left.
pub(crate) fn takes_one(f: Fixed, mu: f32, count: usize, places: usize) -> bool
    ensures { result ≡ true → (count ≡ 1) × (0 < places) × (T.due_at f mu ≡ false) }
{
    count == 1 && 0 < places && !due(f, mu)
}

// Whether it is of neighbours, and the sample completes no sum.
pub(crate) fn waits_one(f: Fixed, clock: Clock, count: usize, places: usize) -> bool
    ensures { result ≡ true → (f.settings.thinning ≡ thinning.Neighbours) × ((count ≡ 1) × (0 < places) × (T.due_at f clock.mu ≡ false)) × (clock.sample_counter + 1 < f.settings.r) }
{
    f.settings.thinning == Thinning::Neighbours
        && takes_one(f, clock.mu, count, places)
        && clock.sample_counter < f.settings.r
        && 1 < f.settings.r - clock.sample_counter
}

// A sample into section 1, whose counter comes back. A call of its own and no counter lent: so the roads beside it hold what they want in registers.
#[inline(never)]
pub(crate) fn thin_apart(
    by_neighbours: bool,
    stages: usize,
    r: usize,
    sample_counter: usize,
    integrators: &mut [i32; MOST_STAGES],
    combs: &mut [i32; MOST_STAGES],
    neighbours: &mut [i32; MOST_NEIGHBOURS],
    input: i32,
) -> usize
    ensures { let kind = E.kind_of by_neighbours in
        let before = E.thinner_of kind stages r integrators.old combs.old neighbours.old sample_counter in
        E.thinner_of kind stages r integrators.new combs.new neighbours.new result ≡ E.next_by kind before input }
{
    let mut counter = sample_counter;
    thin_at(
        by_neighbours,
        stages,
        r,
        &mut counter,
        integrators,
        combs,
        neighbours,
        input,
    );
    counter
}

// The sample is taken, and what it makes stands in front of the span: the answer is how many places that are.
fn take_one(
    own: Checked,
    clock: &mut Clock,
    lent: &mut Arrays<'_>,
    samples: &[i32],
    out: &mut [f32],
) -> usize
    requires fine { L.valid (T.line_held own.fixed clock.old lent.old) ≡ true }
    requires one { (length samples.now ≡ 1) × (0 < length out.old) × (T.due_at own.fixed clock.old.mu ≡ false) }
    ensures same { Same lent.old lent.new }
    ensures begun { let before = T.line_held own.fixed clock.old lent.old in
        T.Begun before samples.now out.old out.new 1 result (T.line_held own.fixed clock.new lent.new) }
{
    let by_neighbours = sums_neighbours(own.fixed.settings.thinning);
    let made = sample_in(by_neighbours, own, clock, lent, samples[0]);
    match made {
        None => 0,
        Some(y) => {
            out[0] = y;
            1
        }
    }
}

// The outputs that are due where no sample is left: the answer is how many places they take.
fn write_rest(own: Checked, clock: &mut Clock, lent: &mut Arrays<'_>, out: &mut [f32]) -> usize
    requires { L.valid (T.line_held own.fixed clock.old lent.old) ≡ true }
    ensures same { Same lent.old lent.new }
    ensures ran { let before = T.line_held own.fixed clock.old lent.old in
        T.RanTo before [] out.old out.new 0 result (T.line_held own.fixed clock.new lent.new) }
{
    let setting = own.fixed.settings.resampler();
    let due = setting.write_due(lent.prototype, lent.delay, clock.mu, out, 0);
    clock.mu = due.mu;
    due.written
}

// Takes the sample, and steps until stopped.
pub(crate) fn feed_one(
    own: Checked,
    clock: &mut Clock,
    lent: &mut Arrays<'_>,
    samples: &[i32],
    out: &mut [f32],
) -> Moved
    requires fine { L.valid (T.line_held own.fixed clock.old lent.old) ≡ true }
    requires one { (length samples.now ≡ 1) × (0 < length out.old) × (T.due_at own.fixed clock.old.mu ≡ false) }
    ensures same { Same lent.old lent.new }
    ensures ran { let before = T.line_held own.fixed clock.old lent.old in
        T.RanTo before samples.now out.old out.new result.taken result.written (T.line_held own.fixed clock.new lent.new) }
{
    let begun = take_one(own, clock, lent, samples, out);
    let rest = write_rest(own, clock, lent, &mut out[begun..]);
    Moved {
        taken: 1,
        written: begun + rest,
    }
}
