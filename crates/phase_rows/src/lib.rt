// 02, §12: prototypes stored phase by phase.
#![tactic(auto)]

mod rows;

pub use crate::rows::{prototype_by_phase, prototype_by_tap};
