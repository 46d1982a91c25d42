// The gauge line's operations, compared with records of what the Rust's converters answered.
#![tactic(auto)]

mod gauge_line;
mod numbers;
pub mod operations;

pub use crate::operations::agrees;
