// 01, section 5: what an opening of the polyphase resampler sets, inside which limits, and where mu may lie.
ghost use Rattle.std.specs.Prelude.{◌≡◌, true, cond, IfOk};
ghost use Rattle.refusal.specs.Outcome.{number_in};
ghost use Rattle.float.specs.F32.{above_zero};
ghost use Rattle.float.specs.PolyphaseOpening as R;

use refusal::Refusal;

pub const LEAST_PHASES: usize = 2;

pub const MOST_PHASES: usize = 64;

pub const LEAST_TAPS: usize = 1;

pub const MOST_PHASE_TAPS: usize = 16;

pub const MOST_CELLS: usize = MOST_PHASES * MOST_PHASE_TAPS;

const LOWEST_MU: f32 = -16777216.0;

const LEAST_LINE_STEP: f32 = 0.015625;

const MOST_LINE_STEP: f32 = 64.0;

// P and T, how the prototype is read, and how far mu goes on with each output. `straight` is a bool as in the state, which C holds and the definitions take. Mu, the
// delay and the prototype go beside it one by one, as C lends them: a struct of references to the three would be made for each call, of a state's fields or of a line's.
#[derive(Clone, Copy)]
pub struct Setting {
    pub phases: usize,
    pub phase_taps: usize,
    pub straight: bool,
    pub step: f32,
}

// Whether x is finite and above zero, as a step or a ratio has to be.
#[tactic(auto, unfolding(crate::specs::F32::above_zero), using(crate::proofs::PolyphaseRange::at_most_largest))]
pub fn above_zero(x: f32) -> bool
    ensures { result ≡ above_zero x }
{
    0.0 < x && x.is_finite()
}

// Whether P and T are inside their limits.
#[tactic(auto, unfolding(crate::specs::PolyphaseOpening::in_limits, crate::specs::PolyphaseOpening::within))]
pub fn in_limits(phases: usize, taps: usize) -> bool
    ensures { result ≡ R.in_limits phases taps }
{
    (LEAST_PHASES..=MOST_PHASES).contains(&phases) && (LEAST_TAPS..=MOST_PHASE_TAPS).contains(&taps)
}

// Whether mu is from low to 1.0 + step as rounded.
#[tactic(auto, unfolding(crate::specs::PolyphaseOpening::mu_from), using(crate::proofs::FloatRange::at_most))]
fn mu_from(low: f32, step: f32, mu: f32) -> bool
    ensures { result ≡ R.mu_from low step mu }
{
    (low..=1.0 + step).contains(&mu)
}

// Whether a step is one that the line takes.
#[tactic(auto, unfolding(crate::specs::PolyphaseOpening::step_in_line), using(crate::proofs::FloatRange::at_most))]
pub fn step_in_line(step: f32) -> bool
    ensures { result ≡ R.step_in_line step }
{
    (LEAST_LINE_STEP..=MOST_LINE_STEP).contains(&step)
}

impl Setting {
    // Whether a call at this mu is not refused by 15.
    #[tactic(auto, unfolding(crate::specs::PolyphaseOpening::valid_at))]
    pub fn is_valid(self, mu: f32) -> bool
        ensures { result ≡ R.valid_at self.phases self.phase_taps self.step mu }
    {
        in_limits(self.phases, self.phase_taps)
            && (above_zero(self.step) && mu_from(LOWEST_MU, self.step, mu))
    }

    // Row 15 of a state at this mu.
    #[inline(always)]
    pub(crate) fn state_answer(self, mu: f32) -> Result<(), Refusal>
        ensures number { number_in result ≡ cond (R.valid_at self.phases self.phase_taps self.step mu) 0 15 }
        ensures valid { IfOk result (λ _. R.valid_at self.phases self.phase_taps self.step mu ≡ true) }
    {
        if !self.is_valid(mu) {
            return Err(Refusal::State);
        }
        Ok(())
    }

    // Whether a feed at this mu is not refused by 15: P = 0 means off.
    #[tactic(auto, unfolding(crate::specs::PolyphaseOpening::valid_in_line_at))]
    pub fn is_valid_in_line(self, mu: f32) -> bool
        ensures { result ≡ R.valid_in_line_at self.phases self.phase_taps self.step mu }
    {
        if self.phases == 0 {
            return true;
        }
        in_limits(self.phases, self.phase_taps)
            && (step_in_line(self.step) && mu_from(0.0, self.step, mu))
    }
}
