// 02, §2: linear-phase FIR filters, in 02's order of IEEE 754 operations.
#![tactic(auto)]

mod brief;
mod few;
mod filter;
mod kinds;
mod lanes;
mod lent;
mod limits;
pub mod linear_phase_fir;
mod moves;
mod one;
mod straight;

pub use crate::kinds::Kind;
pub use crate::limits::{LINEAR_PHASE_DELAYS, MOST_LINEAR_PHASE_TAPS};
pub use crate::linear_phase_fir::LinearPhaseFir;
