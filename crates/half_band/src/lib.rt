// 01, section 4 and the half-band part of section 7: half-band decimators and interpolators and their cascades, in 01's order of IEEE 754 operations.
#![tactic(auto)]

mod half_band;
pub mod hbf_dec;
pub mod hbf_dec_cascade;
pub mod hbf_int;
pub mod hbf_int_cascade;
pub mod hbf_stream;
pub mod hbf_stream_block;
pub mod hbf_taps;
mod in_place;
mod limits;
pub mod reach;
pub mod response_length;

pub use crate::hbf_dec::HbfDec;
pub use crate::hbf_dec_cascade::{DecCascade, HbfDecCascade, HbfDecCascade98};
pub use crate::hbf_int::HbfInt;
pub use crate::hbf_int_cascade::HbfIntCascade;
pub use crate::hbf_stream::{HbfStream, hbf_stream_at, hbf_stream_refused_in_line};
pub use crate::hbf_stream_block::{MOST_STREAM_BLOCK, hbf_stream_block_at};
pub use crate::hbf_taps::{
    Db98, Db140, HBF_TAPS, HBF_TAPS_98, StageTable, hbf_tap_table, hbf_tap_table_98,
};
pub use crate::limits::{
    DEC_CASCADE_DELAYS, DEC_DELAYS, INT_CASCADE_DELAYS, INT_DELAYS, MOST_DEPTH, MOST_HALF_BAND_TAPS,
};
pub use crate::reach::hbf_dec_reach;
pub use crate::response_length::{hbf_dec_response_length, hbf_int_response_length};
