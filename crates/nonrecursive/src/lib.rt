// 02, §13: the CIC decimator's sums without integrators, for a factor that is a power of two.
#![tactic(auto)]

pub mod block;
mod first;
pub mod nonrecursive_decimator;
pub mod thinning;

pub use crate::nonrecursive_decimator::NonrecursiveDecimator;
pub use crate::thinning::Thinning;
