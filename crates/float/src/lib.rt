// 01, section 5, and of section 7 the linear converter: f32 resamplers, in 01's order of IEEE 754 operations.
#![tactic(auto)]

pub mod cast;
pub mod due;
mod interpolation;
pub mod level;
pub mod opening;
pub mod polyphase_resamp;
pub mod resample_linear;
mod running;
pub mod settings;
pub mod span;

pub use crate::cast::f32_to_usize_saturating;
pub use crate::level::q15_to_f32;
pub use crate::polyphase_resamp::PolyphaseResampF32;
pub use crate::resample_linear::resample_linear_f32;
