// 01, section 3: FIR decimation of a stream, the line's part.
ghost use Rattle.std.specs.Prelude.{◌≡◌, ◌≤◌, length, IfOk};
ghost use Rattle.std.specs.Int.{w16};
ghost use Rattle.refusal.specs.Outcome.{told_opened, told_reset};
ghost use Rattle.q15.specs.Fixed.{is_cut};
ghost use Rattle.q15.specs.PolyphaseDecimate.{window_sum, filtered};
ghost use Rattle.q15.specs.FirDecimator.{most_taps, fir_state, fir_zeros, stored, moved, fir_next, fir_out, fir_sum_out, cut_in, made_value, made_cut};
ghost use Rattle.q15.specs.FirDecimator.{fresh, fir_opened, fir_reset, fir_step, told_step, Streams};
ghost use Rattle.q15.specs.inner.FirBlock.{settings_of};

use crate::fir_settings::{FirSettings, MOST_TAPS};
use crate::fir_sum::fir_sum;
use crate::fixed::{Cut, Q15, cut_q15};
use crate::padding::padded;
use refusal::Refusal;

// A FIR decimator between two samples. The window of the next output stands at the front of the delay; wait counts the samples up to and with the one
// that makes it. No taps: in the line off, beside it a state that no opening gives.
#[derive(Clone, Copy)]
pub struct FirDecimator {
    pub taps: [i16; MOST_TAPS],
    pub tap_count: usize,
    pub factor: usize,
    pub delay: [i16; MOST_TAPS],
    pub wait: usize,
}

// Puts a sample of the next output's window at its place.
#[tactic(auto, unfolding(crate::specs::FirDecimator::stored))]
fn store(delay: &mut [i16; MOST_TAPS], t: usize, wait: usize, x: i16)
    ensures { delay.new ≡ stored t wait x delay.old }
{
    if wait <= t && t - wait < MOST_TAPS {
        delay[t - wait] = x;
    }
}

// Moves the window down by the factor.
fn move_down(delay: &mut [i16; MOST_TAPS], t: usize, factor: usize)
    requires { t ≤ most_taps }
    ensures { delay.new ≡ moved t factor delay.old }
{
    delay.copy_within(factor.min(t)..t, 0);
}

// The output of a whole window.
fn fir_output(delay: &[i16; MOST_TAPS], taps: &[i16; MOST_TAPS], t: usize) -> Cut
    requires { t ≤ most_taps }
    ensures { (result.value.0 ≡ filtered taps.now t delay.now 0) × (result.cut ≡ is_cut w16 (window_sum taps.now t delay.now 0)) }
{
    cut_q15(fir_sum(delay, &taps[..t]))
}

// One sample, with the arrays lent; off, it is handed on. A leaf for the line, which has looked at the numbers: it refuses nothing, and takes apart what a state
// holds, since a C caller's line lends its arrays one by one.
#[tactic(auto, unfolding(crate::specs::FirDecimator::fir_next, crate::specs::FirDecimator::fir_out, crate::specs::FirDecimator::fir_sum_out))]
pub fn fir_at(
    delay: &mut [i16; MOST_TAPS],
    taps: &[i16; MOST_TAPS],
    settings: FirSettings,
    wait: &mut usize,
    sample: Q15,
) -> Option<Cut>
    ensures answer { made_value result ≡ fir_out (fir_state taps.now settings.tap_count settings.factor delay.old wait.old) sample.0 }
    ensures state { fir_state taps.now settings.tap_count settings.factor delay.new wait.new
        ≡ fir_next (fir_state taps.now settings.tap_count settings.factor delay.old wait.old) sample.0 }
    ensures cut { made_cut result ≡ cut_in (fir_sum_out (fir_state taps.now settings.tap_count settings.factor delay.old wait.old) sample.0) }
{
    let t = settings.tap_count;
    if t == 0 {
        let handed_on = Cut {
            value: sample,
            cut: false,
        };
        return Some(handed_on);
    }
    // No state that an opening takes: there is no window.
    if MOST_TAPS < t {
        return None;
    }
    store(delay, t, *wait, sample.0);
    if *wait > 1 {
        *wait -= 1;
        return None;
    }
    let y = fir_output(delay, taps, t);
    move_down(delay, t, settings.factor);
    *wait = settings.factor;
    Some(y)
}

// A decimator before its first sample.
#[tactic(auto, unfolding(crate::specs::FirDecimator::fresh, crate::specs::FirDecimator::padded))]
fn fresh_state(taps: &[i16], factor: usize) -> FirDecimator
    requires { length taps.now ≤ most_taps }
    ensures { result ≡ fresh taps.now factor }
{
    let t = taps.len();
    FirDecimator {
        taps: padded(taps, 0),
        tap_count: t,
        factor,
        delay: [0; MOST_TAPS],
        wait: t,
    }
}

// `FirDecimator::process_sample` for the C function, which is lent the state's arrays: a sample does not pay for moving them.
pub fn sample_lent(
    delay: &mut [i16; MOST_TAPS],
    taps: &[i16; MOST_TAPS],
    settings: FirSettings,
    wait: &mut usize,
    sample: Q15,
) -> Result<Option<Cut>, Refusal>
    ensures answer { let before = fir_state taps.now settings.tap_count settings.factor delay.old wait.old in
        let after = fir_state taps.now settings.tap_count settings.factor delay.new wait.new in
        told_step result after ≡ fir_step before sample.0 }
{
    settings.state_row(*wait)?;
    Ok(fir_at(delay, taps, settings, wait, sample))
}

impl FirDecimator {
    // The state of a refused opening, and in the line of a decimator that is off.
    pub fn zeros() -> FirDecimator
        ensures { result ≡ fir_zeros }
    {
        FirDecimator {
            taps: [0; MOST_TAPS],
            tap_count: 0,
            factor: 0,
            delay: [0; MOST_TAPS],
            wait: 0,
        }
    }

    // Refusals 5, 6; no taps is 6. `stream` says what an opening that is not refused is good for.
    pub fn new(taps: &[i16], factor: usize) -> Result<FirDecimator, Refusal>
        ensures answer { told_opened fir_zeros result ≡ fir_opened taps.now factor }
        ensures stream { IfOk result (Streams taps.now factor) }
    {
        let settings = FirSettings {
            tap_count: taps.len(),
            factor,
        };
        settings.answer()?;
        Ok(fresh_state(taps, factor))
    }

    // What it was opened with.
    fn settings(&self) -> FirSettings
        ensures { result ≡ settings_of self.now }
    {
        FirSettings {
            tap_count: self.tap_count,
            factor: self.factor,
        }
    }

    // A fresh opening of the state's own taps and factor. Refusal 15, and the state stays.
    #[tactic(auto, using(crate::proofs::FirOpenings::valid_taps))]
    pub fn reset(&mut self) -> Result<(), Refusal>
        ensures answer { told_reset result self.new ≡ fir_reset self.old }
    {
        let own = self.settings();
        own.state_row(self.wait)?;
        *self = fresh_state(&self.taps[..own.tap_count], own.factor);
        Ok(())
    }

    // One sample. Refusal 15, and the state stays.
    pub fn process_sample(&mut self, sample: Q15) -> Result<Option<Cut>, Refusal>
        ensures answer { told_step result self.new ≡ fir_step self.old sample.0 }
    {
        let settings = self.settings();
        sample_lent(
            &mut self.delay,
            &self.taps,
            settings,
            &mut self.wait,
            sample,
        )
    }
}
