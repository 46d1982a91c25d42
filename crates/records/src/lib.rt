// Records of what the Rust answered: their words, the slices that they lend, and the comparison of answers with them. tests/oracle/README.md has the format.
#![tactic(auto)]

pub mod answers;
pub mod block;
pub mod element;
pub mod lent;
pub mod linear;
pub mod record;
pub mod reset;
pub mod sample;
pub mod span;
pub mod state;
#[cfg(test)]
mod tests;
pub mod value;
