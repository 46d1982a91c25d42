// What a feed of a line changes beside its arrays.
ghost use Rattle.std.specs.Prelude.{◌≡◌};
ghost use Rattle.theory.specs.Tally.{held_sum};
ghost use Rattle.chain.specs.Cuts.{most_cuts};

// Where section 1 stands in its period, how many samples the FIR waits for, where the resampler's next output lies, and how many values were cut to 16 bits.
#[derive(Clone, Copy, Default)]
pub struct Clock {
    pub sample_counter: usize,
    pub wait: usize,
    pub mu: f32,
    pub cuts: u32,
}

// The count of cut values, with so many more; it holds at its end.
pub fn held_sum(cuts: u32, more: u32) -> u32
    ensures { result ≡ held_sum most_cuts cuts more }
{
    cuts.saturating_add(more)
}
