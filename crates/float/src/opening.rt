// 01, section 5: a resampler opened and reset where its numbers and arrays lie, as C and the line hold them, so that no call makes a state of 4 KB.
ghost use Rattle.std.specs.Prelude.{◌≡◌, true, false, take};
ghost use Rattle.refusal.specs.Outcome.{number_in, told_reset};
ghost use Rattle.float.specs.PolyphaseOpening as O;
ghost use Rattle.float.specs.PolyphaseResamp as R;
ghost use Rattle.float.specs.PolyphaseWhole as W;

use crate::settings::{MOST_CELLS, MOST_PHASE_TAPS, Setting, above_zero, in_limits};
use refusal::Refusal;

// Of the cells so many are kept, and zeros stand behind them.
fn keep(cells: &mut [f32; MOST_CELLS], count: usize)
    ensures { cells.new ≡ O.packed (take count cells.old) }
{
    cells[count.min(MOST_CELLS)..].fill(0.0);
}

impl Setting {
    // Rows 12, 13 and 14 of a prototype of so many cells. Which steps are fine is the caller's: a line takes fewer than a resampler alone.
    #[tactic(auto, using(crate::proofs::PolyphaseOutput::few_cells, crate::proofs::PolyphaseOutput::limits_say))]
    pub fn settings_answer(self, cells: usize, step_fine: bool) -> Result<(), Refusal>
        ensures { number_in result ≡ O.settings_number self.phases self.phase_taps cells step_fine }
    {
        if !in_limits(self.phases, self.phase_taps) {
            return Err(Refusal::Phases);
        }
        if cells != self.phases * self.phase_taps {
            return Err(Refusal::Prototype);
        }
        if !step_fine {
            return Err(Refusal::Step);
        }
        Ok(())
    }

    // Those of a resampler alone.
    #[tactic(auto, using(crate::proofs::PolyphaseCalls::opening_number))]
    fn answer(self, prototype: &[f32]) -> Result<(), Refusal>
        ensures { number_in result ≡ (O.opening self.straight self.phases self.phase_taps prototype.now self.step).number }
    {
        self.settings_answer(prototype.len(), above_zero(self.step))
    }

    // The fresh state of the prototype that stands in front of the cells. A leaf for the openings and resets here and the line's, which have looked at the settings: it
    // refuses nothing.
    #[tactic(auto, unfolding(crate::specs::PolyphaseOpening::fresh, crate::specs::PolyphaseOpening::own_taps))]
    pub fn begin(
        self,
        mu: &mut f32,
        delay: &mut [f32; MOST_PHASE_TAPS],
        cells: &mut [f32; MOST_CELLS],
    )
        ensures { let own = O.own_taps (R.state_of self mu.old delay.old cells.old) in
            R.state_of self mu.new delay.new cells.new ≡ O.fresh self.straight self.phases self.phase_taps own self.step }
    {
        *mu = 1.0;
        delay.fill(0.0);
        keep(cells, self.phases.saturating_mul(self.phase_taps));
    }

    // The state of a refused opening, and in the line of a resampler that is off. A leaf for both.
    #[tactic(auto, unfolding(crate::specs::PolyphaseOpening::zeros))]
    pub fn clear(
        mu: &mut f32,
        delay: &mut [f32; MOST_PHASE_TAPS],
        cells: &mut [f32; MOST_CELLS],
    ) -> Setting
        ensures { R.state_of result mu.new delay.new cells.new ≡ O.zeros }
    {
        *mu = 0.0;
        delay.fill(0.0);
        cells.fill(0.0);
        Setting {
            phases: 0,
            phase_taps: 0,
            straight: false,
            step: 0.0,
        }
    }

    // `from_taps`, of either reading, where the arrays lie. Refused by 12, 13, 14: all that is lent is zeros then.
    pub fn open(
        &mut self,
        prototype: &[f32],
        mu: &mut f32,
        delay: &mut [f32; MOST_PHASE_TAPS],
        cells: &mut [f32; MOST_CELLS],
    ) -> Result<(), Refusal>
        ensures answer { told_reset result (R.state_of self.new mu.new delay.new cells.new)
            ≡ O.opening self.old.straight self.old.phases self.old.phase_taps prototype.now self.old.step }
        ensures whole { W.Opens self.old.straight self.old.phases self.old.phase_taps prototype.now self.old.step
            (told_reset result (R.state_of self.new mu.new delay.new cells.new)) }
    {
        let wanted = *self;
        match wanted.answer(prototype) {
            Err(row) => {
                *self = Setting::clear(mu, delay, cells);
                Err(row)
            }
            Ok(()) => {
                cells[..prototype.len()].copy_from_slice(prototype);
                wanted.begin(mu, delay, cells);
                Ok(())
            }
        }
    }

    // The fresh opening with the setting and the prototype that the state has. Refused by 15: the state stays.
    #[tactic(auto, unfolding(crate::specs::PolyphaseOpening::valid, crate::specs::PolyphaseOpening::reset, crate::specs::PolyphaseWhole::Resets))]
    pub fn reset(
        self,
        mu: &mut f32,
        delay: &mut [f32; MOST_PHASE_TAPS],
        cells: &mut [f32; MOST_CELLS],
    ) -> Result<(), Refusal>
        ensures answer { told_reset result (R.state_of self mu.new delay.new cells.new) ≡ O.reset (R.state_of self mu.old delay.old cells.old) }
        ensures whole { W.Resets (R.state_of self mu.old delay.old cells.old) (told_reset result (R.state_of self mu.new delay.new cells.new)) }
    {
        self.state_answer(*mu)?;
        self.begin(mu, delay, cells);
        Ok(())
    }
}
