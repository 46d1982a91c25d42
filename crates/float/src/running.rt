// 01, section 5: a block of samples through the resampler, and one sample that is pushed. The state's numbers and arrays are lent apart, as C holds them, so that
// no call copies an array.
ghost use Rattle.std.specs.Prelude.{◌≡◌, ◌+◌, ◌≤◌, ◌∷◌, take, drop};
ghost use Rattle.refusal.specs.Outcome.{told_on, none_moved};
ghost use Rattle.float.specs.PolyphaseOpening as O;
ghost use Rattle.float.specs.PolyphaseResamp as R;
ghost use Rattle.float.specs.inner.Running as N;

use crate::due::shift_in;
use crate::interpolation::Reading;
use crate::settings::{MOST_CELLS, MOST_PHASE_TAPS, Setting};
use crate::span::put_at_end;
use refusal::{Moved, Refusal};

// A run writes the samples it consumes one before the other on a tape, so that the delay need not be moved for each; what is on it goes back to its end
// where no place is left before it.
const TAPE: usize = 64;

// The sample x goes in before the newest on the tape; what it returns is x's place.
fn take_in(tape: &mut [f32; TAPE], newest: usize, taps: usize, x: f32) -> usize
    requires { (1 ≤ taps) × (taps ≤ O.most_phase_taps) × (newest + taps ≤ 64) }
    ensures { (result + taps ≤ 64) × (take taps (drop result tape.new) ≡ take taps (x ∷ drop newest tape.old)) }
{
    if newest == 0 {
        let before = TAPE - taps - 1;
        tape.copy_within(..taps, TAPE - taps);
        tape[before] = x;
        return before;
    }
    let before = newest - 1;
    tape[before] = x;
    before
}

impl Reading<'_> {
    // Outputs that are due are written, then a sample is consumed, until dst is full or a sample is wanted and none is left. No range: mu says what a turn does. The
    // outputs stand in a loop of their own so that the compiler inlines each into it.
    fn run(
        self,
        mu: &mut f32,
        delay: &mut [f32; MOST_PHASE_TAPS],
        src: &[f32],
        dst: &mut [f32],
    ) -> Moved
        ensures { N.RanTo self.entry.setting mu.old self.entry.prototype.now delay.old src.now dst.old result mu.new delay.new dst.new }
    {
        let taps = self.setting.phase_taps;
        let mut tape = [0.0f32; TAPE];
        put_at_end(&mut tape, &delay[..taps]);
        let mut newest = TAPE - taps;
        let mut at = *mu;
        let mut taken = 0usize;
        let mut written = 0usize;
        while written < dst.len() {
            if at < 1.0 {
                let due = self.write_due(&tape[newest..], at, dst, written);
                at = due.mu;
                written = due.written;
            } else {
                let Some(&x) = src.get(taken) else {
                    break;
                };
                newest = take_in(&mut tape, newest, taps, x);
                taken += 1;
                at -= 1.0;
            }
        }
        delay[..taps].copy_from_slice(&tape[newest..newest + taps]);
        *mu = at;
        Moved { taken, written }
    }
}

impl Setting {
    // A block from mu on. Refused by 15.
    #[tactic(auto, unfolding(crate::specs::PolyphaseOpening::valid, crate::specs::PolyphaseResamp::block_outcome, crate::specs::PolyphaseResamp::block_span))]
    pub fn block(
        self,
        mu: &mut f32,
        delay: &mut [f32; MOST_PHASE_TAPS],
        prototype: &[f32; MOST_CELLS],
        src: &[f32],
        dst: &mut [f32],
    ) -> Result<Moved, Refusal>
        ensures answer { told_on none_moved result (R.state_of self mu.new delay.new prototype.now) ≡ R.block_outcome (R.state_of self mu.old delay.old prototype.now) src.now dst.old }
        ensures span { dst.new ≡ R.block_span (R.state_of self mu.old delay.old prototype.now) src.now dst.old }
    {
        self.state_answer(*mu)?;
        Ok(Reading::of(prototype, self).run(mu, delay, src, dst))
    }

    // A pushed sample. Refused by 15.
    #[tactic(auto, unfolding(crate::specs::PolyphaseOpening::valid, crate::specs::PolyphaseResamp::push_outcome, crate::specs::PolyphaseResamp::push_span))]
    pub fn push(
        self,
        mu: &mut f32,
        delay: &mut [f32; MOST_PHASE_TAPS],
        prototype: &[f32; MOST_CELLS],
        x: f32,
        out: &mut [f32],
    ) -> Result<usize, Refusal>
        ensures answer { told_on 0 result (R.state_of self mu.new delay.new prototype.now) ≡ R.push_outcome (R.state_of self mu.old delay.old prototype.now) x out.old }
        ensures span { out.new ≡ R.push_span (R.state_of self mu.old delay.old prototype.now) x out.old }
    {
        self.state_answer(*mu)?;
        shift_in(delay, self.phase_taps, x);
        let due = self.write_due(prototype, delay, *mu - 1.0, out, 0);
        *mu = due.mu;
        Ok(due.written)
    }
}
