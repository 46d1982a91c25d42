// 01, section 3: what the line's FIR is opened with, and where its wait may lie.
ghost use Rattle.std.specs.Prelude.{◌≡◌, cond};
ghost use Rattle.refusal.specs.Outcome.{number_in};
ghost use Rattle.q15.specs.FirDecimator.{settings_number, settings_number_in_line, bad_wait, fir_valid, fir_valid_in_line};

use crate::block::fir_rows;
use refusal::Refusal;

// The most taps of the line's FIR. 02, request 7: "goes from 64 to 128, so refusal 6 moves there".
pub const MOST_TAPS: usize = 128;

// T and D. No taps: in the line off, beside it settings that no opening takes.
#[derive(Clone, Copy)]
pub struct FirSettings {
    pub tap_count: usize,
    pub factor: usize,
}

impl FirSettings {
    // Rows 5 and 6.
    #[tactic(auto, unfolding(crate::specs::FirDecimator::settings_number))]
    pub(crate) fn answer(self) -> Result<(), Refusal>
        ensures { number_in result ≡ settings_number self.tap_count self.factor }
    {
        fir_rows(self.factor, self.tap_count, MOST_TAPS)
    }

    // Rows 5 and 6, as the line has them: no taps means off, and the factor is not looked at.
    #[tactic(auto, unfolding(crate::specs::FirDecimator::settings_number_in_line))]
    pub fn answer_in_line(self) -> Result<(), Refusal>
        ensures { number_in result ≡ settings_number_in_line self.tap_count self.factor }
    {
        if self.tap_count == 0 {
            return Ok(());
        }
        self.answer()
    }

    // Row 15: a wait of 0, or above both the taps and the factor.
    #[tactic(auto, unfolding(crate::specs::FirDecimator::bad_wait))]
    fn is_bad_wait(self, wait: usize) -> bool
        ensures { result ≡ bad_wait self.tap_count self.factor wait }
    {
        wait == 0 || (self.tap_count < wait && self.factor < wait)
    }

    // Whether a call on a state of this wait is not refused by 15.
    #[tactic(auto, unfolding(crate::specs::FirDecimator::fir_valid))]
    fn is_valid(self, wait: usize) -> bool
        ensures { result ≡ fir_valid self.tap_count self.factor wait }
    {
        self.answer().is_ok() && !self.is_bad_wait(wait)
    }

    // Whether a call on a line of this wait is not refused by 15: no taps means off.
    #[tactic(auto, unfolding(crate::specs::FirDecimator::fir_valid_in_line))]
    pub fn is_valid_in_line(self, wait: usize) -> bool
        ensures { result ≡ fir_valid_in_line self.tap_count self.factor wait }
    {
        self.tap_count == 0 || self.is_valid(wait)
    }

    // Row 15, beside the line.
    pub(crate) fn state_row(self, wait: usize) -> Result<(), Refusal>
        ensures { number_in result ≡ cond (fir_valid self.tap_count self.factor wait) 0 15 }
    {
        if self.is_valid(wait) {
            return Ok(());
        }
        Err(Refusal::State)
    }
}
