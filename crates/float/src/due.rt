// 01, section 5, "while mu < 1 an output is made": the outputs that are due, one after the other, and a sample into the delay.
ghost use Rattle.std.specs.Prelude.{◌≡◌, ◌-◌, ◌≤◌, true, length};
ghost use Rattle.std.specs.Float.Ieee.{lt};
ghost use Rattle.float.specs.F32.{one32};
ghost use Rattle.float.specs.PolyphaseOutput.{cut_unit};
ghost use Rattle.float.specs.inner.Running as N;
ghost use Rattle.float.specs.PolyphaseResamp as R;

use crate::interpolation::Reading;
use crate::settings::{MOST_CELLS, MOST_PHASE_TAPS, Setting, in_limits};

// Where the next output lies after those that were due, and how many places of the span are written.
#[derive(Drop)]
pub struct Due {
    pub mu: f32,
    pub written: usize,
}

// An x below 1.0 cut to 0.0..1.0; a NaN would stay one. `clamp` would test the upper end again for each output.
#[tactic(auto, unfolding(crate::specs::PolyphaseOutput::cut_unit), using(crate::proofs::Place::below_one))]
fn cut_below(x: f32) -> f32
    requires { lt x one32 ≡ true }
    ensures { result ≡ cut_unit x }
{
    if x < 0.0 { 0.0 } else { x }
}

// The sample x goes in at the front of the delay's first T places. Where there are no T places, nothing moves.
#[tactic(auto, unfolding(crate::specs::PolyphaseResamp::shifted_in))]
pub fn shift_in(delay: &mut [f32; MOST_PHASE_TAPS], taps: usize, x: f32)
    ensures { delay.new ≡ R.shifted_in taps x delay.old }
{
    if MOST_PHASE_TAPS < taps {
        return;
    }
    // Place by place: by `copy_within` a push takes 2 to 8 % longer, since a call moves so few places.
    let mut held = x;
    for place in &mut delay[..taps] {
        held = std::mem::replace(place, held);
    }
}

impl Reading<'_> {
    // What is due from mu on is written from the place `from` of dst on, as long as it has a place. No range: mu says how many are due, and a `for` over the places
    // would count those written too, and break where mu is past.
    pub(crate) fn write_due(self, delay: &[f32], mu: f32, dst: &mut [f32], from: usize) -> Due
        requires { self.setting.phase_taps ≤ length delay.now }
        ensures { let before = dst.old in
            let r = self.entry in
            let s = r.setting in
            N.told_due result dst.new ≡ N.emitted s.straight s.phases s.phase_taps s.step delay.now r.prototype.now (length before - from) mu from before }
    {
        let mut next = mu;
        let mut written = from;
        while written < dst.len() && next < 1.0 {
            dst[written] = self.interpolate(delay, cut_below(next));
            written += 1;
            next += self.setting.step;
        }
        Due { mu: next, written }
    }
}

impl Setting {
    // What is due from mu on is written from the place `from` of dst on, as long as it has a place. Where P or T is outside its limits, nothing. A leaf for `push`
    // and the line, which have looked at the numbers: it refuses nothing. With the part of dst from there on lent in place of dst and `from` a block of a resampler
    // costs up to a sixteenth more.
    pub fn write_due(
        self,
        prototype: &[f32; MOST_CELLS],
        delay: &[f32; MOST_PHASE_TAPS],
        mu: f32,
        dst: &mut [f32],
        from: usize,
    ) -> Due
        ensures { N.told_due result dst.new ≡ N.emitted_from self.straight self.phases self.phase_taps self.step delay.now prototype.now mu from dst.old }
    {
        if !in_limits(self.phases, self.phase_taps) {
            return Due { mu, written: from };
        }
        // Mostly none is due, and then no reading is made ready for one.
        if !(mu < 1.0) {
            return Due { mu, written: from };
        }
        Reading::of(prototype, self).write_due(delay, mu, dst, from)
    }
}
