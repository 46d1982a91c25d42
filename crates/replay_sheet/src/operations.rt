// The operations by their codes. tests/oracle/README.md has them.
ghost use Rattle.std.specs.Prelude.{false, ◌≡◌, ◌<◌};

use crate::tap_sheet;
use records::record::Words;

// Whether reader and writer answer as a record says; `words` is what follows the operation's code. A code that is none of theirs agrees with nothing. A code
// stands here alone, beside what it does: an enum of the operations would list them a second time.
pub fn agrees(operation: u32, words: Words<'_>) -> bool
    ensures below { operation < 209 → result ≡ false }
    ensures above { 211 < operation → result ≡ false }
{
    match operation {
        0xd1 => tap_sheet::count(words),
        0xd2 => tap_sheet::entry(words),
        0xd3 => tap_sheet::write(words),
        _ => false,
    }
}
