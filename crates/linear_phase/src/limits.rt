// 02's limits of the linear-phase filters.

// Of one half.
pub const MOST_LINEAR_PHASE_TAPS: usize = 23;

// The places of a delay: its filter's length less one.
pub const LINEAR_PHASE_DELAYS: usize = 2 * MOST_LINEAR_PHASE_TAPS;
