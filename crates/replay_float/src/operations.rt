// The operations by their codes. tests/oracle/README.md has them.
ghost use Rattle.std.specs.Prelude.{false, ◌≡◌, ◌<◌};

use crate::cascade::{self, DecCascade, IntCascade};
use crate::hbf::{self, Dec, Int};
use crate::hbf_stream::Stream;
use crate::polyphase_resamp::{self, Resampler};
use crate::values::{self, LinearF32};
use float::PolyphaseResampF32;
use half_band::{hbf_dec_response_length, hbf_int_response_length};
use records::block::replay_block_on_stack;
use records::linear::replay_linear_on_stack;
use records::record::Words;
use records::reset::replay_reset;
use records::sample::{replay_push_on_stack, replay_sample};

// Whether the converters answer as a record says; `words` is what follows the operation's code. A code that is none of this layer's agrees with nothing.
// A code stands here alone, beside what it does: an enum of the operations would list them a second time.
pub fn agrees(operation: u32, words: Words<'_>) -> bool
    ensures below { operation < 81 → result ≡ false }
    ensures above { 181 < operation → result ≡ false }
{
    match operation {
        0x51 => replay_linear_on_stack::<LinearF32>(words),
        0x52 => values::to_f32(words),
        0x53 => values::response_length(words, hbf_dec_response_length),
        0x54 => values::response_length(words, hbf_int_response_length),
        0x55 => values::tap_table(words),
        0x61 => hbf::new::<Dec>(words),
        0x62 => hbf::process_pair(words),
        0x63 => replay_block_on_stack::<Dec>(words),
        0x64 => replay_reset::<Dec>(words),
        0x71 => hbf::new::<Int>(words),
        0x72 => replay_sample::<Int>(words),
        0x73 => replay_block_on_stack::<Int>(words),
        0x74 => replay_reset::<Int>(words),
        0x81 => cascade::new::<DecCascade>(words),
        0x82 => replay_block_on_stack::<DecCascade>(words),
        0x83 => replay_reset::<DecCascade>(words),
        0x91 => cascade::new::<IntCascade>(words),
        0x92 => replay_block_on_stack::<IntCascade>(words),
        0x93 => replay_reset::<IntCascade>(words),
        0xa1 => cascade::new::<Stream>(words),
        0xa2 => replay_sample::<Stream>(words),
        0xa3 => replay_reset::<Stream>(words),
        0xb1 => polyphase_resamp::new(words, PolyphaseResampF32::from_taps),
        0xb2 => replay_block_on_stack::<Resampler>(words),
        0xb3 => replay_push_on_stack::<Resampler>(words),
        0xb4 => replay_reset::<Resampler>(words),
        0xb5 => polyphase_resamp::new(words, PolyphaseResampF32::from_taps_straight),
        _ => false,
    }
}
