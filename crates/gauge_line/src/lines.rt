// The numbers of a line as a caller in C keeps them, field by field: put together from the fields that were lent, and put back into them.
ghost use Rattle.std.specs.Prelude.{◌≡◌};
ghost use Rattle.gauge_line.specs.Crossing.{is_set, kind_of};
ghost use Rattle.gauge_line.specs.States.{exit, IsFlag};
ghost use Rattle.gauge_line.specs.inner.Numbers.{numbers_at, numbers_by};

use crate::states::{flag, is_set, kind, kind_number};
use line::{Clock, LineNumbers, Settings};

// The numbers of a line whose fields were lent.
pub(crate) fn numbers(
    stages: usize,
    r: usize,
    sample_counter: usize,
    tap_count: usize,
    factor: usize,
    wait: usize,
    depth: usize,
    phases: usize,
    phase_taps: usize,
    straight: usize,
    mu: f32,
    step: f32,
    cuts: u32,
    thinning: usize,
) -> LineNumbers
    ensures { result ≡ numbers_by stages r sample_counter tap_count factor wait depth phases phase_taps straight mu step cuts thinning }
{
    LineNumbers {
        settings: Settings {
            stages,
            r,
            factor,
            depth,
            phases,
            phase_taps: phase_taps,
            straight: is_set(straight),
            step,
            thinning: kind(thinning),
        },
        tap_count,
        clock: Clock {
            sample_counter,
            wait,
            mu,
            cuts,
        },
    }
}

// The numbers of a line into the places that were lent for them.
pub(crate) fn put_numbers(
    next: LineNumbers,
    stages: &mut usize,
    r: &mut usize,
    sample_counter: &mut usize,
    tap_count: &mut usize,
    factor: &mut usize,
    wait: &mut usize,
    depth: &mut usize,
    phases: &mut usize,
    phase_taps: &mut usize,
    straight: &mut usize,
    mu: &mut f32,
    step: &mut f32,
    cuts: &mut u32,
    thinning: &mut usize,
)
    ensures state { numbers_at exit stages r sample_counter tap_count factor wait depth phases phase_taps straight mu step cuts thinning ≡ next }
    ensures setting { IsFlag straight.new × IsFlag thinning.new }
{
    let s = next.settings;
    *stages = s.stages;
    *r = s.r;
    *tap_count = next.tap_count;
    *factor = s.factor;
    *depth = s.depth;
    *phases = s.phases;
    *phase_taps = s.phase_taps;
    *step = s.step;
    put_clock(next, sample_counter, wait, straight, mu, cuts, thinning);
}

// What a step or a feed changes of a line's numbers into the places that were lent for it; and both flags, since those that were lent may be other numbers than 0 and 1.
pub(crate) fn put_clock(
    next: LineNumbers,
    sample_counter: &mut usize,
    wait: &mut usize,
    straight: &mut usize,
    mu: &mut f32,
    cuts: &mut u32,
    thinning: &mut usize,
)
    ensures clock { record { sample_counter = sample_counter.new; wait = wait.new; mu = mu.new; cuts = cuts.new } ≡ next.clock }
    ensures settings { (is_set straight.new ≡ next.settings.straight) × (kind_of thinning.new ≡ next.settings.thinning) }
    ensures setting { IsFlag straight.new × IsFlag thinning.new }
{
    *sample_counter = next.clock.sample_counter;
    *wait = next.clock.wait;
    *mu = next.clock.mu;
    *cuts = next.clock.cuts;
    *straight = flag(next.settings.straight);
    *thinning = kind_number(next.settings.thinning);
}
