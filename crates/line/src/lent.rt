// The line held apart: its numbers and its arrays lent. No call copies them, so that short feeds cost little.
ghost use Rattle.std.specs.Prelude.{◌≡◌, length, drop};
ghost use Rattle.theory.specs.Feeds.{head_of};
ghost use Rattle.refusal.specs.Outcome.{told_on, none_moved};
ghost use Rattle.chain.specs.Same.{Same};
ghost use Rattle.line.specs.Line as L;
ghost use Rattle.line.specs.Lent as N;
ghost use Rattle.line.specs.Demand3.{Demand3};

use crate::feed::feed_by;
use crate::step::{LineStep, step_on};
use chain::arrays::Arrays;
use chain::clock::Clock;
use chain::settings::Settings;
use refusal::{Moved, Refusal};

// The settings of a line, how many taps its FIR has, and what feeds change.
#[derive(Clone, Copy, Default)]
pub struct LineNumbers {
    pub settings: Settings,
    pub tap_count: usize,
    pub clock: Clock,
}

// One step, where the span has a place or not, with the sample at `at` of those lent as the next, if there is one. Refusal 15.
pub fn step_lent(
    n: &mut LineNumbers,
    lent: &mut Arrays<'_>,
    samples: &[i32],
    at: usize,
    place: bool,
) -> Result<LineStep, Refusal>
    ensures same { Same lent.old lent.new }
    ensures stays { (n.new.settings ≡ n.old.settings) × (n.new.tap_count ≡ n.old.tap_count) }
    ensures answer { let before = N.line_in n.old lent.old in
        let after = N.line_in n.new lent.new in
        L.told_step result after ≡ L.step_outcome before place (head_of (drop at samples.now)) }
{
    let own = n.checked(lent.counts)?;
    let next = samples.get(at).copied();
    let step = step_on(own, &mut n.clock, lent, next, place);
    Ok(step)
}

// Steps until stopped. The clause `demand3` is the whole claim over every list of feeds from an opening; alone it leaves a line open that no feeds lead to,
// with `answer` and `span` it is exact. Refusal 15, and no other.
pub fn feed_lent(
    n: &mut LineNumbers,
    lent: &mut Arrays<'_>,
    samples: &[i32],
    out: &mut [f32],
) -> Result<Moved, Refusal>
    ensures same { Same lent.old lent.new }
    ensures stays { (n.new.settings ≡ n.old.settings) × (n.new.tap_count ≡ n.old.tap_count) }
    ensures answer { let before = N.line_in n.old lent.old in
        let after = N.line_in n.new lent.new in
        told_on none_moved result after ≡ L.feed_outcome before samples.now (length out.old) }
    ensures span { let before = N.line_in n.old lent.old in
        out.new ≡ L.feed_span before samples.now out.old }
    ensures demand3 { let before = N.line_in n.old lent.old in
        let after = N.line_in n.new lent.new in
        Demand3 before samples.now out.old out.new (told_on none_moved result after) }
{
    let checked = n.checked(lent.counts)?;
    let moved = feed_by(checked, &mut n.clock, lent, samples, out);
    Ok(moved)
}
