// 01, sections 2 and 3 and the Q15 part of section 7: 16-bit numbers of 1/32768ths and their rate converters.
#![tactic(auto)]

pub mod block;
pub mod fir_block;
pub mod fir_decimator;
pub mod fir_settings;
pub mod fir_sum;
pub mod fixed;
pub mod padding;
pub mod polyphase_decimate;
pub mod polyphase_interpolate;
pub mod resample_linear;

pub use crate::block::{FirBlock, MOST_FACTOR, NONE_WRITTEN};
pub use crate::fir_block::{MOST_FIR_BLOCK, fir_block_at};
pub use crate::fir_decimator::{FirDecimator, fir_at};
pub use crate::fir_settings::{FirSettings, MOST_TAPS};
pub use crate::fixed::{Cut, Q15, cut_q15};
pub use crate::polyphase_decimate::polyphase_decimate_q15;
pub use crate::polyphase_interpolate::polyphase_interpolate_q15;
pub use crate::resample_linear::resample_linear_q15;
