// 02, request 6: a line parked as a tap sheet.
#![tactic(auto)]

mod entries;
mod fine_line;
pub mod kept;
mod put;
pub mod settings;
mod writing;

pub use crate::kept::KeptLine;
pub use crate::writing::{park, park_kept, parked_len, parked_len_kept};
