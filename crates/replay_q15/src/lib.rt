// The Q15 layer's operations, compared with records of what the Rust answered.
#![tactic(auto)]

mod fir_decimator;
pub mod operations;
mod q15_blocks;

pub use crate::operations::agrees;
