// Zeros in the numbers and arrays of a line: what a refusal leaves, and what each part is read over. The arrays one by one, as where they are read: behind a field of `Places` a
// proof does not know how long they are.
ghost use Rattle.std.specs.Prelude.{◌≡◌, replicate, pos};
ghost use Rattle.nonrecursive.specs.NonrecursiveDecimator.{most_neighbours};
ghost use Rattle.q15.specs.FirDecimator.{most_taps};
ghost use Rattle.float.specs.F32.{zero32};
ghost use Rattle.line.specs.Openings as L;
ghost use Rattle.line.specs.Placed.{SamePlaces, line_on};

use float::settings::{MOST_CELLS, MOST_PHASE_TAPS};
use half_band::{DEC_CASCADE_DELAYS, MOST_DEPTH};
use integer::limits::MOST_STAGES;
use line::{LineNumbers, Places};
use nonrecursive::nonrecursive_decimator::MOST_NEIGHBOURS;
use q15::MOST_TAPS;

// Both kinds of section 1.
pub(crate) fn clear_sums(
    integrators: &mut [i32; MOST_STAGES],
    combs: &mut [i32; MOST_STAGES],
    neighbours: &mut [i32; MOST_NEIGHBOURS],
)
    ensures { (integrators.new ≡ replicate 8 (pos 0)) × (combs.new ≡ replicate 8 (pos 0)) × (neighbours.new ≡ replicate most_neighbours (pos 0)) }
{
    integrators.fill(0);
    combs.fill(0);
    neighbours.fill(0);
}

// Section 3.
pub(crate) fn clear_fir(taps: &mut [i16; MOST_TAPS], delay: &mut [i16; MOST_TAPS])
    ensures { (taps.new ≡ replicate most_taps (pos 0)) × (delay.new ≡ replicate most_taps (pos 0)) }
{
    taps.fill(0);
    delay.fill(0);
}

// Section 4.
pub(crate) fn clear_half_band(
    delays: &mut [f32; DEC_CASCADE_DELAYS],
    held: &mut [f32; MOST_DEPTH],
    counts: &mut [usize; MOST_DEPTH],
)
    ensures { (delays.new ≡ replicate 480 zero32) × (held.new ≡ replicate 5 zero32) × (counts.new ≡ replicate 5 0) }
{
    delays.fill(0.0);
    held.fill(0.0);
    counts.fill(0);
}

// Section 5.
pub(crate) fn clear_resampler(delay: &mut [f32; MOST_PHASE_TAPS], prototype: &mut [f32; MOST_CELLS])
    ensures { (delay.new ≡ replicate 16 zero32) × (prototype.new ≡ replicate 1024 zero32) }
{
    delay.fill(0.0);
    prototype.fill(0.0);
}

// The whole line.
pub(crate) fn clear(n: &mut LineNumbers, lent: &mut Places<'_>)
    ensures same { SamePlaces lent.old lent.new }
    ensures zeros { line_on n.new lent.new ≡ L.zeros }
{
    clear_sums(lent.integrators, lent.combs, lent.neighbours);
    clear_fir(lent.taps, lent.fir_delay);
    clear_half_band(lent.delays, lent.held, lent.counts);
    clear_resampler(lent.delay, lent.prototype);
    *n = LineNumbers::default();
}
