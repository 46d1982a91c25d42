// 01, section 6: "One step of the line: a full span stops it; else a due output is written; else the next sample is taken ..; else it stops."
ghost use Rattle.std.specs.Prelude.{◌≡◌, true};
ghost use Rattle.theory.specs.Feeds.{step};
ghost use Rattle.nonrecursive.specs.EitherKind as E;
ghost use Rattle.float.specs.PolyphaseOpening.{in_limits};
ghost use Rattle.chain.specs.Same.{Same};
ghost use Rattle.line.specs.Line as L;
ghost use Rattle.line.specs.inner.Together as T;

use crate::sample::sample_in;
use crate::validity::Checked;
use chain::arrays::Arrays;
use chain::clock::Clock;
use chain::fixed::Fixed;
use nonrecursive::Thinning;

// What a step did: it took a sample, wrote one float sample, did both, or stopped.
#[derive(Clone, Copy)]
pub enum LineStep {
    Took,
    Wrote(f32),
    TookAndWrote(f32),
    Stopped,
}

// "An output is due when the resampler is on and mu < 1."
#[tactic(auto, unfolding(crate::specs::inner::Together::due_at))]
pub(crate) fn due(f: Fixed, mu: f32) -> bool
    ensures { result ≡ T.due_at f mu }
{
    f.settings.phases != 0 && mu < 1.0
}

// Whether a line of this kind sums neighbours.
pub(crate) fn sums_neighbours(thinning: Thinning) -> bool
    ensures { E.kind_of result ≡ thinning }
{
    thinning == Thinning::Neighbours
}

// One step, the clock and the arrays lent, with the next sample, if there is one.
pub(crate) fn step_on(
    own: Checked,
    clock: &mut Clock,
    lent: &mut Arrays<'_>,
    sample: Option<i32>,
    place: bool,
) -> LineStep
    requires { let s = own.fixed.settings in
        T.due_at own.fixed clock.old.mu ≡ true → in_limits s.phases s.phase_taps ≡ true }
    ensures same { Same lent.old lent.new }
    ensures steps { T.stepped_in own.fixed (L.event_of result) clock.new lent.new
        ≡ step L.line place (T.line_held own.fixed clock.old lent.old) sample }
{
    if !place {
        return LineStep::Stopped;
    }
    let f = own.fixed;
    if due(f, clock.mu) {
        let setting = f.settings.resampler();
        let y = setting.interpolate(lent.prototype, lent.delay, clock.mu);
        clock.mu += f.settings.step;
        return LineStep::Wrote(y);
    }
    let Some(x) = sample else {
        return LineStep::Stopped;
    };
    let by_neighbours = sums_neighbours(f.settings.thinning);
    let made = sample_in(by_neighbours, own, clock, lent, x);
    match made {
        None => LineStep::Took,
        Some(y) => LineStep::TookAndWrote(y),
    }
}
