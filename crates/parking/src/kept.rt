// A line as its caller keeps it, lent to be read: its numbers, and its arrays where they lie.
ghost use Rattle.std.specs.Prelude.{◌≡◌};
ghost use Rattle.parking.specs.Kept.{line_kept};

use float::settings::{MOST_CELLS, MOST_PHASE_TAPS};
use half_band::{DEC_CASCADE_DELAYS, MOST_DEPTH};
use integer::limits::MOST_STAGES;
use line::{Line, LineNumbers, numbers_in};
use nonrecursive::nonrecursive_decimator::MOST_NEIGHBOURS;
use q15::MOST_TAPS;

#[derive(Clone, Copy)]
pub struct KeptLine<'a> {
    pub numbers: LineNumbers,
    pub integrators: &'a [i32; MOST_STAGES],
    pub combs: &'a [i32; MOST_STAGES],
    pub neighbours: &'a [i32; MOST_NEIGHBOURS],
    pub taps: &'a [i16; MOST_TAPS],
    pub fir_delay: &'a [i16; MOST_TAPS],
    pub delays: &'a [f32; DEC_CASCADE_DELAYS],
    pub held: &'a [f32; MOST_DEPTH],
    pub counts: &'a [usize; MOST_DEPTH],
    pub delay: &'a [f32; MOST_PHASE_TAPS],
    pub prototype: &'a [f32; MOST_CELLS],
}

impl<'a> KeptLine<'a> {
    // The fields of a line.
    pub(crate) fn of(line: &'a Line) -> KeptLine<'a>
        ensures { line_kept result ≡ line.now }
    {
        KeptLine {
            numbers: numbers_in(line),
            integrators: &line.cic.integrator_state,
            combs: &line.cic.comb_state,
            neighbours: &line.neighbours,
            taps: &line.fir.taps,
            fir_delay: &line.fir.delay,
            delays: &line.half_band.delays,
            held: &line.half_band.held,
            counts: &line.half_band.counts,
            delay: &line.resampler.delay,
            prototype: &line.resampler.prototype,
        }
    }
}
