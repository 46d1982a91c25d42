// 01, section 1 and the CIC part of section 7: cascaded integrator-comb converters on i32, modulo 2^32.
#![tactic(auto)]

pub mod cic_decimator;
pub mod cic_interpolator;
pub mod exact_range;
pub mod gain;

pub use crate::cic_decimator::CicDecimator;
pub use crate::cic_interpolator::CicInterpolator;

pub mod limits;
pub mod stages;
