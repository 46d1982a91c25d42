// 02, request 10: what the calls of a feeding plan would take and write, before a line is opened.
#![tactic(auto)]

mod counting;
mod feeding;
mod lists;

pub use crate::feeding::feeding_plan;
pub use crate::lists::MOST_CALLS;
