// The operations by their codes. tests/oracle/README.md has them.
ghost use Rattle.std.specs.Prelude.{false, ◌≡◌, ◌<◌};

use crate::fir_decimator::{self, Decimator};
use crate::q15_blocks::{self, LinearQ15};
use q15::{polyphase_decimate_q15, polyphase_interpolate_q15};
use records::linear::replay_linear_on_stack;
use records::record::Words;
use records::reset::replay_reset;
use records::sample::replay_sample;

// Whether the converters answer as a record says; `words` is what follows the operation's code. A code that is none of this layer's agrees with nothing.
// A code stands here alone, beside what it does: an enum of the operations would list them a second time.
pub fn agrees(operation: u32, words: Words<'_>) -> bool
    ensures below { operation < 49 → result ≡ false }
    ensures above { 67 < operation → result ≡ false }
{
    match operation {
        0x31 => q15_blocks::fir(words, polyphase_decimate_q15),
        0x32 => q15_blocks::fir(words, polyphase_interpolate_q15),
        0x33 => replay_linear_on_stack::<LinearQ15>(words),
        0x34 => q15_blocks::cut(words),
        0x41 => fir_decimator::new(words),
        0x42 => replay_sample::<Decimator>(words),
        0x43 => replay_reset::<Decimator>(words),
        _ => false,
    }
}
