// The arrays of a line where its caller keeps them, all lent to be written: an opening and a reset write the taps and the prototype too, which a feed is lent to be read (`Arrays`).
use float::settings::{MOST_CELLS, MOST_PHASE_TAPS};
use half_band::{DEC_CASCADE_DELAYS, MOST_DEPTH};
use integer::limits::MOST_STAGES;
use nonrecursive::nonrecursive_decimator::MOST_NEIGHBOURS;
use q15::MOST_TAPS;

#[derive(Drop)]
pub struct Places<'a> {
    pub integrators: &'a mut [i32; MOST_STAGES],
    pub combs: &'a mut [i32; MOST_STAGES],
    pub neighbours: &'a mut [i32; MOST_NEIGHBOURS],
    pub taps: &'a mut [i16; MOST_TAPS],
    pub fir_delay: &'a mut [i16; MOST_TAPS],
    pub delays: &'a mut [f32; DEC_CASCADE_DELAYS],
    pub held: &'a mut [f32; MOST_DEPTH],
    pub counts: &'a mut [usize; MOST_DEPTH],
    pub delay: &'a mut [f32; MOST_PHASE_TAPS],
    pub prototype: &'a mut [f32; MOST_CELLS],
}
