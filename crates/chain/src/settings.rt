// 01, section 6: what a line is opened with, beside its taps and its prototype.
ghost use Rattle.std.specs.Prelude.{◌≡◌};
ghost use Rattle.chain.specs.inner.Parts.{fir_settings_of, setting_of};

use float::settings::Setting;
use nonrecursive::Thinning;
use q15::FirSettings;

// A part that is off is a number, no taps, depth 0 or no phases, and no Option: so C hands the settings over, and the table of refusals looks at them.
#[derive(Clone, Copy, Default)]
pub struct Settings {
    pub stages: usize,
    pub r: usize,
    pub factor: usize,
    pub depth: usize,
    pub phases: usize,
    pub phase_taps: usize,
    pub straight: bool,
    pub step: f32,
    // 02, §13: what section 1 thins by.
    pub thinning: Thinning,
}

impl Settings {
    // What the FIR is opened with, with so many taps.
    pub fn fir(self, tap_count: usize) -> FirSettings
        ensures { result ≡ fir_settings_of self tap_count }
    {
        FirSettings {
            tap_count,
            factor: self.factor,
        }
    }

    // What the resampler is opened with.
    pub fn resampler(self) -> Setting
        ensures { result ≡ setting_of self }
    {
        Setting {
            phases: self.phases,
            phase_taps: self.phase_taps,
            straight: self.straight,
            step: self.step,
        }
    }
}
