// Linear-phase filters, compared with records of what the Rust answered.
#![tactic(auto)]

mod linear_phase_fir;
pub mod operations;

pub use crate::operations::agrees;
