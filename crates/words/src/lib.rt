// 02, request 6: floats and signed numbers as the words that a parked line has, one or many.
#![tactic(auto)]

pub mod floats;
mod word;

pub use crate::floats::{bits_of_f32, f32_of_bits, is_f32_bits};
pub use crate::word::Word;
