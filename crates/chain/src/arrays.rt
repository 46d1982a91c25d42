// The arrays of a line where its caller keeps them, which go through the sections together.
use float::settings::{MOST_CELLS, MOST_PHASE_TAPS};
use half_band::{DEC_CASCADE_DELAYS, MOST_DEPTH};
use integer::limits::MOST_STAGES;
use nonrecursive::nonrecursive_decimator::MOST_NEIGHBOURS;
use q15::MOST_TAPS;

// The same ten as `Places` of the line and `KeptLine` of a parked one: no type parameter stands for `&` or `&mut`. Each function that is lent
// it says that the references stay (`Same`), since to the caller a struct that is lent to be written may hold others afterwards.
#[derive(Drop)]
pub struct Arrays<'a> {
    pub integrators: &'a mut [i32; MOST_STAGES],
    pub combs: &'a mut [i32; MOST_STAGES],
    pub neighbours: &'a mut [i32; MOST_NEIGHBOURS],
    pub taps: &'a [i16; MOST_TAPS],
    pub fir_delay: &'a mut [i16; MOST_TAPS],
    pub delays: &'a mut [f32; DEC_CASCADE_DELAYS],
    pub held: &'a mut [f32; MOST_DEPTH],
    pub counts: &'a mut [usize; MOST_DEPTH],
    pub delay: &'a mut [f32; MOST_PHASE_TAPS],
    pub prototype: &'a [f32; MOST_CELLS],
}
