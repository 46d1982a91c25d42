// 02, request 1: tap sheets. A reader over a sheet's bytes, and a writer.
#![tactic(auto)]

pub mod directory;
pub mod fields;
pub mod tap_sheet;
mod write;

pub use crate::directory::Place;
pub use crate::tap_sheet::{TapSheet, sheet_count};
pub use crate::write::{lay, lay_directory, write_sheet};
