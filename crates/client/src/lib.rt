// A caller that knows the line by its contracts alone.
#![tactic(auto)]

pub mod feeds;

pub use crate::feeds::feed_all;
