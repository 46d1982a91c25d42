// The operations by their codes. tests/oracle/README.md has them.
ghost use Rattle.std.specs.Prelude.{false, ◌≡◌, ◌<◌};

use crate::cic;
use crate::cic_decimator::{self, Decimator};
use crate::cic_interpolator::Interpolator;
use integer::CicDecimator;
use records::block::replay_block_on_stack;
use records::record::Words;
use records::sample::replay_push_on_stack;

// Whether the converters answer as a record says; `words` is what follows the operation's code. A code that is none of this layer's agrees with nothing.
// A code stands here alone, beside what it does: an enum of the operations would list them a second time.
pub fn agrees(operation: u32, words: Words<'_>) -> bool
    ensures below { operation < 17 → result ≡ false }
    ensures above { 36 < operation → result ≡ false }
{
    match operation {
        0x11 => cic::new::<Decimator>(words),
        0x12 => cic_decimator::sample(words, CicDecimator::process_sample),
        0x13 => cic_decimator::sample(words, CicDecimator::process_sample_scaled),
        0x14 => cic::gain::<Decimator>(words),
        0x15 => cic::gain_bits::<Decimator>(words),
        0x16 => replay_block_on_stack::<Decimator>(words),
        0x17 => cic_decimator::fresh_block(words),
        0x21 => cic::new::<Interpolator>(words),
        0x22 => replay_push_on_stack::<Interpolator>(words),
        0x23 => cic::gain::<Interpolator>(words),
        0x24 => cic::gain_bits::<Interpolator>(words),
        _ => false,
    }
}
