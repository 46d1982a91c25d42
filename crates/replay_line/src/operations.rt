// The operations by their codes. tests/oracle/README.md has them.
ghost use Rattle.std.specs.Prelude.{false, ◌≡◌, ◌<◌};

use crate::gauge_line;
use records::record::Words;

// Whether the line answers as a record says; `words` is what follows the operation's code. A code that is none of this layer's agrees with nothing. A code
// stands here alone, beside what it does: an enum of the operations would list them a second time.
pub fn agrees(operation: u32, words: Words<'_>) -> bool
    ensures below { operation < 193 → result ≡ false }
    ensures above { 195 < operation → result ≡ false }
{
    match operation {
        0xc1 => gauge_line::open(words),
        0xc2 => gauge_line::feeds(words),
        0xc3 => gauge_line::damaged(words),
        _ => false,
    }
}
