// 01, section 5: one output of the polyphase resampler.
ghost use Rattle.std.specs.Prelude.{◌≡◌, ◌+◌, ◌*◌, ◌<◌, ◌≤◌, true, false, length, take, if◌then◌else◌, from_bits, slice_index_or};
ghost use Rattle.std.specs.Float.{nan, binary32};
ghost use Rattle.std.specs.Float.Ieee.{le, to_unsigned};
ghost use Rattle.float.specs.F32.{zero32, blend};
ghost use Rattle.float.specs.PolyphaseOutput.{tap, straight_tap, cut_unit, first_place, phase_sum, output};
ghost use Rattle.float.specs.PolyphaseOpening as R;
ghost use Rattle.float.specs.inner.Running as N;

use crate::cast::whole_part;
use crate::settings::{MOST_CELLS, MOST_PHASE_TAPS, Setting, in_limits};

// A prototype, and a setting inside the limits by which it is read.
#[derive(Clone, Copy)]
pub(crate) struct Reading<'a> {
    pub prototype: &'a [f32; MOST_CELLS],
    pub setting: Setting,
    ghost phases_inside: { (R.least_phases ≤ setting.phases) × (setting.phases ≤ R.most_phases) },
    ghost taps_inside: { (R.least_phase_taps ≤ setting.phase_taps) × (setting.phase_taps ≤ R.most_phase_taps) },
}

// The first places: P in wrapped phase; one more in straight phase, at q = P.
fn first_places(straight: bool, phases: u32) -> u32
    requires { phases ≤ R.most_phases }
    ensures { result ≡ (if straight then phases + 1 else phases) }
{
    if straight { phases + 1 } else { phases }
}

// The first place at q. Its whole part is at most P, so that no division is needed to reduce it, and in straight phase it stays. How many there are is worked
// out once for many outputs.
fn first_place(straight: bool, q: f32, phases: u32) -> u32
    requires { (1 ≤ phases) × (phases ≤ R.most_phases) × (le (from_bits binary32 0x4b80_0000) q ≡ false) × (to_unsigned 64 q ≤ phases) }
    ensures { result ≡ first_place straight phases q }
{
    let whole = whole_part(q);
    if whole < first_places(straight, phases) {
        whole
    } else {
        0
    }
}

// f of the way from the first sum to the second.
fn blend_of(sums: (f32, f32), f: f32) -> f32
    ensures { result ≡ blend sums.0 sums.1 f }
{
    let (y0, y1) = sums;
    y0 * (1.0 - f) + y1 * f
}

// The cell at i, and 0.0 past the last.
fn cell_at(cells: &[f32], i: usize) -> f32
    ensures { result ≡ slice_index_or cells.now i zero32 }
{
    cells.get(i).copied().unwrap_or(0.0)
}

impl<'a> Reading<'a> {
    // For a caller that has tested the setting: what each answers to one outside the limits is its own.
    #[inline(always)]
    pub(crate) fn of(prototype: &'a [f32; MOST_CELLS], setting: Setting) -> Reading<'a>
        requires { R.in_limits setting.phases setting.phase_taps ≡ true }
        ensures { (result.prototype.now ≡ prototype.now) × (result.setting ≡ setting) }
    {
        Reading { prototype, setting }
    }

    // The P × T cells.
    fn cells(self) -> &'a [f32]
        ensures { let r = self.entry in
            let n = r.setting.phases * r.setting.phase_taps in
            (result.now ≡ take n r.prototype.now) × (length result.now ≡ n) }
    {
        let prototype = self.prototype;
        &prototype[..self.setting.phases * self.setting.phase_taps]
    }
}

impl Reading<'_> {
    // The sums over the delay's places, a tap for each, of the cells from p0 and from p1 on, P apart. By number: in straight phase a place may lie past its row of P
    // cells, so that a zip with such rows would not do. The number has 32 bits and each sum a part that begins at its first cell: so a machine of 32 bits steps along
    // both by their addresses.
    #[tactic(auto, unfolding(crate::specs::PolyphaseOutput::phase_sum, crate::specs::PolyphaseOutput::tap, crate::specs::inner::Running::Inside))]
    fn summed(self, delay: &[f32], p0: usize, p1: usize) -> (f32, f32)
        requires { let n = length delay.now in
            (n ≤ R.most_phase_taps) × N.Inside self.setting.phases n p0 × N.Inside self.setting.phases n p1 × (p0 ≤ R.most_cells) × (p1 ≤ R.most_cells) }
        ensures { let r = self.entry in
            let h = r.prototype.now in
            let d = delay.now in
            let P = r.setting.phases in
            (result.0 ≡ phase_sum (tap h P p0) d (length d)) × (result.1 ≡ phase_sum (tap h P p1) d (length d)) }
    {
        let prototype = self.prototype;
        let first = &prototype[p0..];
        let second = &prototype[p1..];
        let phases = self.setting.phases;
        let mut y0 = 0.0f32;
        let mut y1 = 0.0f32;
        for i in 0..delay.len() as u32 {
            let t = i as usize;
            let x = delay[t];
            y0 += first[t * phases] * x;
            y1 += second[t * phases] * x;
        }
        (y0, y1)
    }

    // In straight phase, the sums from place p, at the prototype's end, and from the next place on, f of the way from the one to the other. But for the last tap
    // both places lie before the end; past it a tap is 0.0.
    fn blended_at_the_end(self, delay: &[f32], p: usize, f: f32) -> f32
        requires { (length delay.now ≡ self.setting.phase_taps) × (p ≤ self.setting.phases) }
        ensures { let r = self.entry in
            let h = r.prototype.now in
            let d = delay.now in
            let P = r.setting.phases in
            let T = r.setting.phase_taps in
            result ≡ blend (phase_sum (straight_tap h P T p) d T) (phase_sum (straight_tap h P T (p + 1)) d T) f }
    {
        let last = self.setting.phase_taps - 1;
        let (y0, y1) = self.summed(&delay[..last], p, p + 1);
        let cells = self.cells();
        let from = last * self.setting.phases;
        let x = delay[last];
        let c0 = cell_at(cells, from + p);
        let c1 = cell_at(cells, from + p + 1);
        blend_of((y0 + c0 * x, y1 + c1 * x), f)
    }

    // One output at a mu that is cut, by the setting. Below the last phase both settings read the same cells. There and at the end in straight phase the two places
    // are neighbours, which the compiler reads as pairs: so these calls say `p + 1`, and wrapped phase, which goes back to the first, has one of its own.
    pub(crate) fn interpolate(self, delay: &[f32], mu: f32) -> f32
        requires { (self.setting.phase_taps ≤ length delay.now) × (mu ≡ cut_unit mu) }
        ensures { let r = self.entry in
            result ≡ output r.setting.straight r.setting.phases r.setting.phase_taps mu delay.now r.prototype.now }
    {
        let phases = self.setting.phases as u32;
        let straight = self.setting.straight;
        let window = &delay[..self.setting.phase_taps];
        let q = (1.0 - mu) * (phases as f32);
        let place = first_place(straight, q, phases);
        let f = q - (place as f32);
        let p = place as usize;
        if place + 1 < phases {
            return blend_of(self.summed(window, p, p + 1), f);
        }
        if straight {
            return self.blended_at_the_end(window, p, f);
        }
        blend_of(self.summed(window, p, 0), f)
    }
}

impl Setting {
    // One output at mu, of the prototype and the delay that are lent. Where P or T is outside its limits, 0.0. A leaf for the line, which has looked at the numbers:
    // it refuses nothing.
    pub fn interpolate(
        self,
        prototype: &[f32; MOST_CELLS],
        delay: &[f32; MOST_PHASE_TAPS],
        mu: f32,
    ) -> f32
        ensures { result ≡ (if R.in_limits self.phases self.phase_taps then output self.straight self.phases self.phase_taps mu delay.now prototype.now else zero32) }
    {
        if !in_limits(self.phases, self.phase_taps) {
            return 0.0;
        }
        Reading::of(prototype, self).interpolate(delay, mu.clamp(0.0, 1.0))
    }
}
