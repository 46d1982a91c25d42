// 02, §10: a feeding plan is stepped through, call by call.
ghost use Rattle.std.specs.Prelude.{◌≡◌, map, length};
ghost use Rattle.refusal.specs.Outcome.{number_in};
ghost use Rattle.refusal.specs.declared.Moved.{Moved};
ghost use Rattle.line.specs.Outputs as O;
ghost use Rattle.plan.specs.Plan as P;
ghost use Rattle.plan.specs.inner.Ticking as K;

use crate::counting::Clock;
use crate::lists::lists_fine;
use line::Settings;
use line::opening::answer;
use refusal::Refusal;

// Each call of a plan, one after the other.
// By their numbers: behind a zip with `iter_mut` a proof knows of the lists of counts their lengths alone.
fn feeds_counted(
    clock: &mut Clock,
    pieces: &[usize],
    spans: &[usize],
    taken: &mut [usize],
    written: &mut [usize],
)
    requires { K.Runs clock.old × (length spans.now ≡ length pieces.now) × (length taken.old ≡ length pieces.now) × (length written.old ≡ length pieces.now) }
    ensures { (taken.new ≡ map (λ (m : Moved). m.taken) (K.count_feeds clock.old pieces.now spans.now))
        × (written.new ≡ map (λ (m : Moved). m.written) (K.count_feeds clock.old pieces.now spans.now)) }
{
    for i in 0..pieces.len() {
        let moved = clock.feed(pieces[i], spans[i]);
        taken[i] = moved.taken;
        written[i] = moved.written;
    }
}

// What each call of a plan would take and write, of a line that is opened with these settings, taps and prototype: the lengths of the pieces and of the spans, and
// the two lists of counts. All refusals of the opening come before 22. A refused plan leaves both lists as they were lent.
// Settings, taps and prototype stay three: a struct of them would be put together by the caller in C's interface, and taken apart in the first line.
pub fn feeding_plan(
    settings: Settings,
    taps: &[i16],
    prototype: &[f32],
    pieces: &[usize],
    spans: &[usize],
    taken: &mut [usize],
    written: &mut [usize],
) -> Result<(), Refusal>
    ensures answer { (
        let opening : O.Opening = record { settings = settings; taps = taps.now; prototype = prototype.now } in
        number_in result ≡ P.plan_number opening pieces.now spans.now (length taken.old) (length written.old)) }
    ensures kept { (
        let opening : O.Opening = record { settings = settings; taps = taps.now; prototype = prototype.now } in
        number_in result ≡ 0 → P.PlanKept opening pieces.now spans.now taken.new written.new) }
    ensures refused { (number_in result ≡ 0 → ⊥) → (taken.new ≡ taken.old) × (written.new ≡ written.old) }
{
    answer(settings, taps.len(), prototype.len())?;
    if !lists_fine(pieces, spans, taken.len(), written.len()) {
        return Err(Refusal::Plan);
    }
    let mut clock = Clock::of_line(settings, taps.len());
    feeds_counted(&mut clock, pieces, spans, taken, written);
    Ok(())
}
