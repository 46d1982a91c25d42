// 02, request 6: a parked line taken up again.
#![tactic(auto)]

mod clearing;
mod entries;
mod parked;
mod reading;
mod rows;
mod stated;
mod taking;

pub use crate::taking::{take_up, take_up_lent};
