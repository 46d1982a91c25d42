// What a feed of a line never changes.
use crate::settings::Settings;

// The most sums of section 1 in a block.
pub const MOST_SUMS: usize = 128;

// Fewer sums than these are not worth a block of integrators.
pub const FEW_SUMS: usize = 6;

// Fewer samples than these are not worth a block of neighbours: the arrays of a block, which are cleared for MOST_SUMS sums, cost as much as so many one by one.
pub const FEW_SAMPLES: usize = 8;

// The settings, how many taps the FIR has, and the gain bits that follow. It goes beside the clock and the arrays, and not in one struct with them: what a call is not
// lent to be written needs no clause that it stays.
#[derive(Clone, Copy)]
pub struct Fixed {
    pub settings: Settings,
    pub tap_count: usize,
    pub bits: u32,
}
