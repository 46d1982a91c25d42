// What stands in the settings entry, and the lengths that it makes.
ghost use Rattle.std.specs.Prelude.{◌≡◌, ◌<◌, ◌≤◌, sum};
ghost use Rattle.nonrecursive.specs.NonrecursiveDecimator as D;
ghost use Rattle.parking.specs.Entries as E;
ghost use Rattle.parking.specs.inner.Limits.{InWords};
ghost use Rattle.parking.specs.Parked as P;
ghost use Rattle.parking.specs.Kept.{line_by};
ghost use Rattle.parking.specs.inner.Told.{numbers_of, count_by, settings_by, all_sizes};
ghost use Rattle.parking.specs.declared.kept.KeptLine.{KeptLine};

use half_band::MOST_DEPTH;
use line::LineNumbers;
use nonrecursive::Thinning;
use words::bits_of_f32;

#[derive(Clone, Copy)]
pub struct ParkedSettings {
    pub stages: usize,
    pub r: usize,
    pub taps: usize,
    pub factor: usize,
    pub depth: usize,
    pub phases: usize,
    pub phase_taps: usize,
    // The entry's word, which in a sheet may be any: over 1 is refused by row 15 when it is taken up.
    pub straight: usize,
    pub step: u32,
    pub cuts: u32,
}

// The delays of each half-band stage, 4M.
const WINDOWS: [usize; MOST_DEPTH] = [12, 16, 20, 40, 92];

// The bytes of the half-band entry at each depth: 6 + 16M for a stage.
const HALF_BAND_BYTES: [usize; MOST_DEPTH + 1] = [0, 54, 124, 210, 376, 750];

// How many delays half-band stage k has; a stage that there is not has none.
pub fn window(k: usize) -> usize
    ensures { result ≡ E.window_of k }
{
    WINDOWS.get(k).copied().unwrap_or(0)
}

// How many bytes the half-band entry has; "a depth over 5 counts as 5".
#[tactic(auto, unfolding(crate::specs::Parked::half_band_bytes))]
pub fn half_band_bytes(depth: usize) -> usize
    ensures { result ≡ P.half_band_bytes depth }
{
    HALF_BAND_BYTES[depth.min(MOST_DEPTH)]
}

// How often r can be halved, rounded down, so that at least 1 is left.
#[tactic(auto, using(crate::proofs::Thinned::halvings_is, crate::proofs::Thinned::halvings_zero))]
pub fn halvings(r: usize) -> usize
    ensures value { result ≡ D.halvings r }
    ensures most { result ≤ 63 }
{
    r.checked_ilog2().map_or(0, |n| n as usize)
}

// How many entries the sheet of a line has: of neighbours one more.
pub fn entry_count(thinning: Thinning) -> usize
    ensures { result ≡ count_by thinning }
{
    match thinning {
        Thinning::Integrators => 7,
        Thinning::Neighbours => 8,
    }
}

// How many bytes entries of these sizes have together.
pub(crate) fn total(sizes: &[usize]) -> usize
    requires { sum sizes.now < 4294967296 }
    ensures { result ≡ sum sizes.now }
{
    sizes.iter().sum()
}

impl ParkedSettings {
    #[tactic(auto, unfolding(crate::specs::Entries::settings_in))]
    pub(crate) fn of(n: LineNumbers) -> ParkedSettings
        ensures { (k : KeptLine) → numbers_of result ≡ settings_by (line_by n k) }
    {
        let s = n.settings;
        ParkedSettings {
            stages: s.stages,
            r: s.r,
            taps: n.tap_count,
            factor: s.factor,
            depth: s.depth,
            phases: s.phases,
            phase_taps: s.phase_taps,
            straight: usize::from(s.straight),
            step: bits_of_f32(s.step),
            cuts: n.clock.cuts,
        }
    }

    // How long each entry is: the neighbours' comes last, and of another line there is none.
    #[tactic(auto, unfolding(crate::specs::Parked::neighbour_count))]
    pub(crate) fn sizes(&self, thinning: Thinning) -> [usize; 8]
        requires { InWords (numbers_of self.now) }
        ensures { result ≡ all_sizes thinning (numbers_of self.now) }
    {
        let (first, last) = match thinning {
            Thinning::Integrators => (2 + 8 * self.stages, 0),
            Thinning::Neighbours => (0, 2 + 4 * (self.stages * halvings(self.r))),
        };
        [
            24,
            first,
            2 * self.taps,
            2 + 2 * self.taps,
            half_band_bytes(self.depth),
            4 * (self.phases * self.phase_taps),
            4 + 4 * self.phase_taps,
            last,
        ]
    }
}
