// 01, section 6: sections 1 to 5 over a block of samples, the list of one section handed to the next, and how many sums of section 1 a block may have.
#![tactic(auto)]

pub mod arrays;
pub mod clock;
mod filter;
pub mod fixed;
mod levels;
mod resample;
pub mod room;
pub mod settings;
pub mod sums;

pub use crate::arrays::Arrays;
pub use crate::clock::Clock;
pub use crate::fixed::Fixed;
pub use crate::room::sums_for;
pub use crate::settings::Settings;
pub use crate::sums::take_batch;
