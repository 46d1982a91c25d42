// The integer layer's operations, compared with records of what the Rust answered.
#![tactic(auto)]

mod cic;
mod cic_decimator;
mod cic_interpolator;
pub mod operations;

pub use crate::operations::agrees;
