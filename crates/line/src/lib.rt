// 01, section 6: the gauge line, which joins the converters of the layers below.
#![tactic(auto)]

mod alone;
mod batches;
pub mod beginning;
mod feed;
pub mod gauge_line;
pub mod lent;
pub mod opening;
mod pieces;
pub mod places;
mod sample;
mod step;
pub mod validity;

pub use crate::beginning::{open_lent, reset_lent};
pub use crate::gauge_line::{Line, line_valid, numbers_in, zeros};
pub use crate::lent::{LineNumbers, feed_lent, step_lent};
pub use crate::pieces::next_piece;
pub use crate::places::Places;
pub use crate::step::LineStep;
pub use crate::validity::numbers_valid;
pub use chain::{Arrays, Clock, Settings};
