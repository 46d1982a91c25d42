// The operations by their codes. tests/oracle/README.md has them.
ghost use Rattle.std.specs.Prelude.{false, ◌≡◌, ◌<◌};

use crate::linear_phase_fir::{self, Filter};
use records::block::replay_block_on_stack;
use records::record::Words;
use records::reset::replay_reset;
use records::sample::replay_sample;

// Whether a filter answers as a record says; `words` is what follows the operation's code. A code that is none of its own agrees with nothing. A code stands
// here alone, beside what it does: an enum of the operations would list them a second time.
pub fn agrees(operation: u32, words: Words<'_>) -> bool
    ensures below { operation < 225 → result ≡ false }
    ensures above { 230 < operation → result ≡ false }
{
    match operation {
        0xe1 => linear_phase_fir::new(words),
        0xe2 => replay_sample::<Filter>(words),
        0xe3 => replay_block_on_stack::<Filter>(words),
        0xe4 => linear_phase_fir::inplace(words),
        0xe5 => linear_phase_fir::response_length(words),
        0xe6 => replay_reset::<Filter>(words),
        _ => false,
    }
}
