// The float layer's operations, compared with records of what the Rust answered.
#![tactic(auto)]

mod cascade;
mod hbf;
mod hbf_stream;
pub mod operations;
mod polyphase_resamp;
mod values;

pub use crate::operations::agrees;
