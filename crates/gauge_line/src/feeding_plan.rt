// What the calls of a feeding plan would take and write, before a line is opened.
ghost use Rattle.std.specs.Prelude.{◌≡◌, length};
ghost use Rattle.line.specs.Outputs.{Opening};
ghost use Rattle.chain.specs.declared.settings.Settings.{Settings};
ghost use Rattle.plan.specs.Plan.{PlanKept, plan_number};
ghost use Rattle.gauge_line.specs.Crossing.{is_set, kind_of};

use crate::answers::number;
use crate::states::{is_set, kind};
use line::Settings;
use plan::feeding_plan;

// The number in the name is that of the line's layout: a program that was compiled with a header of fewer settings does not link.
#[unsafe(no_mangle)]
pub extern "C" fn gauge_raw_plan_3(
    stages: usize,
    r: usize,
    factor: usize,
    depth: usize,
    phases: usize,
    phase_taps: usize,
    straight: usize,
    step: f32,
    thinning: usize,
    taps: &[i16],
    prototype: &[f32],
    pieces: &[usize],
    spans: &[usize],
    taken: &mut [usize],
    written: &mut [usize],
) -> usize
    ensures answer { (
        let settings : Settings = record {
          stages = stages;
          r = r;
          factor = factor;
          depth = depth;
          phases = phases;
          phase_taps = phase_taps;
          straight = is_set straight;
          step = step;
          thinning = kind_of thinning;
        } in
        let opening : Opening = record { settings = settings; taps = taps.now; prototype = prototype.now } in
        result ≡ plan_number opening pieces.now spans.now (length taken.old) (length written.old)) }
    ensures kept { (
        let settings : Settings = record {
          stages = stages;
          r = r;
          factor = factor;
          depth = depth;
          phases = phases;
          phase_taps = phase_taps;
          straight = is_set straight;
          step = step;
          thinning = kind_of thinning;
        } in
        let opening : Opening = record { settings = settings; taps = taps.now; prototype = prototype.now } in
        result ≡ 0 → PlanKept opening pieces.now spans.now taken.new written.new) }
    ensures refused { (result ≡ 0 → ⊥) → (taken.new ≡ taken.old) × (written.new ≡ written.old) }
{
    let settings = Settings {
        stages,
        r,
        factor,
        depth,
        phases,
        phase_taps: phase_taps,
        straight: is_set(straight),
        step,
        thinning: kind(thinning),
    };
    let answer = feeding_plan(settings, taps, prototype, pieces, spans, taken, written);
    number(&answer)
}
