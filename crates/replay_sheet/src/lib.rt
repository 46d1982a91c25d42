// Tap sheets, compared with records of what 02 answers.
#![tactic(auto)]

pub mod operations;
mod tap_sheet;

pub use crate::operations::agrees;
