// The refusals of 01's table, and how far a feed moves. What a call answers is a `Result`: what it hands over, or why it is turned back.
#![tactic(auto)]

ghost use Rattle.std.specs.Prelude.{◌≡◌};
ghost use Rattle.refusal.specs.Table.{number_of};

pub mod rows;

// Why a call is turned back: one case for each number of 01's table, and of 02's requests that join it.
#[derive(Clone, Copy, PartialEq, Eq, Debug)]
pub enum Refusal {
    Stages = 1,
    Factor = 2,
    GainBits = 3,
    Span = 4,
    FirFactor = 5,
    Taps = 6,
    Samples = 7,
    TapsMultiple = 8,
    Ratio = 9,
    HalfBandTaps = 10,
    Depth = 11,
    Phases = 12,
    Prototype = 13,
    Step = 14,
    State = 15,
    Directory = 16,
    Entries = 17,
    EntryNumber = 18,
    PhaseTaps = 19,
    Lengths = 20,
    Parked = 21,
    Plan = 22,
    PowerOfTwo = 23,
}

// How many samples a feed or a feeding block took, and how many outputs it wrote.
#[derive(Clone, Copy, PartialEq, Eq, Debug)]
pub struct Moved {
    pub taken: usize,
    pub written: usize,
}

// What a refused feed or block moved. No `Default`: the name says which call moved nothing, where `unwrap_or_default` tells zeros alone.
pub const NONE_MOVED: Moved = Moved {
    taken: 0,
    written: 0,
};

impl Refusal {
    // 01's number, under the name that callers have for it.
    pub fn number(self) -> u8
        ensures { result ≡ number_of self }
    {
        self as u8
    }
}
