// 01, section 6: "A feed steps until stopped", by batches: as long as enough samples are left, a block of them goes through each section before the next one. How
// many samples and outputs a step has does not depend on the samples, so a batch is as long as leaves a place of the span before its last sum.
ghost use Rattle.std.specs.Prelude.{◌≡◌, true, ◌≤◌};
ghost use Rattle.chain.specs.Same.{Same};
ghost use Rattle.line.specs.Openings as L;
ghost use Rattle.line.specs.inner.Together as T;

use crate::validity::Checked;
use chain::arrays::Arrays;
use chain::clock::Clock;
use chain::fixed::{FEW_SAMPLES, FEW_SUMS};
use chain::room::sums_for;
use chain::settings::Settings;
use chain::sums::take_batch;
use nonrecursive::Thinning;
use refusal::Moved;

// Whether so many samples are worth a batch: FEW_SAMPLES of neighbours, and those of one sum, which go one by one at a higher cost, and those of FEW_SUMS of integrators. Each kind by
// itself, and not over chain's `few_sums`: so the divisor is a constant, by which no division is compiled.
fn worth_a_batch(s: Settings, left: usize) -> bool
    ensures { result ≡ true → s.r ≤ left }
{
    match s.thinning {
        Thinning::Integrators => s.r <= left / FEW_SUMS,
        Thinning::Neighbours => FEW_SAMPLES <= left && s.r <= left,
    }
}

// Steps while samples are left that are worth a batch, and a batch of them leaves a place. No range: a batch takes as many samples as its sums want.
// That the line is valid is asked for here and by the other functions of a feed: a ghost field of `Checked` can't say it, since it is of the clock and the arrays too.
pub(crate) fn feed_batches(
    own: Checked,
    clock: &mut Clock,
    lent: &mut Arrays<'_>,
    samples: &[i32],
    out: &mut [f32],
) -> Moved
    requires { L.valid (T.line_held own.fixed clock.old lent.old) ≡ true }
    ensures same { Same lent.old lent.new }
    ensures begun { let before = T.line_held own.fixed clock.old lent.old in
        T.Begun before samples.now out.old out.new result.taken result.written (T.line_held own.fixed clock.new lent.new) }
{
    let f = own.fixed;
    let setting = f.settings.resampler();
    let mut taken: usize = 0;
    let mut written: usize = 0;
    while worth_a_batch(f.settings, samples.len() - taken) {
        let due = setting.write_due(lent.prototype, lent.delay, clock.mu, out, written);
        clock.mu = due.mu;
        written = due.written;
        let count = sums_for(f, clock.wait, *lent.counts, out.len() - written);
        if count == 0 {
            break;
        }
        let on = take_batch(
            f,
            clock,
            lent,
            &samples[taken..],
            count,
            &mut out[written..],
        );
        taken += on.taken;
        written += on.written;
    }
    Moved { taken, written }
}
