// Replays a list of what the Rust answered: does each operation through the crates, compares every word, and writes how many records differ.
#![tactic(auto)]

mod tally;
mod text;

ghost use Rattle.std.specs.Prelude.{◌≡◌, ◌+◌, ◌%◌, ◌^◌, length, IsOkAnd, Ok, Err, None};

use crate::tally::Tally;
use crate::text::{ReadError, read_record};
use records::record::Words;
use std::io;
use std::io::BufReader;

// The most words of a record, with the bytes that these take. 8 MiB of stack have room for both.
const MOST_WORDS: usize = 200000;

const MOST_BYTES: usize = MOST_WORDS * 9;

// Bytes that one read of the list may take ahead.
const AHEAD: usize = 65536;

// No list has so many records: the loop over them is proved to end by it.
const MOST_RECORDS: u64 = 1099511627776;

// Whether the crates answer as a record says; `words` is what follows the operation's code.
fn agrees(operation: u32, words: Words<'_>) -> bool {
    match operation {
        0x10..=0x2f => replay_integer::agrees(operation, words),
        0x30..=0x4f => replay_q15::agrees(operation, words),
        0x50..=0xbf => replay_float::agrees(operation, words),
        0xc0..=0xcf => replay_line::agrees(operation, words),
        0xd0..=0xdf => replay_sheet::agrees(operation, words),
        0xe0..=0xef => replay_phase::agrees(operation, words),
        _ => false,
    }
}

fn replayed(tally: Tally, record: &[u32]) -> Tally {
    let mut words = Words { left: record };
    let operation = words.word();
    tally.counted(operation, agrees(operation, words))
}

// A list that ends leaves the tally; one that breaks off or is no list counts as one more difference, with no operation.
fn ended(tally: Tally, read: Result<Option<usize>, ReadError>) -> io::Result<Tally>
    ensures end { read ≡ Ok None → result ≡ Ok tally }
    ensures broken { read ≡ Err ReadError.Broken → IsOkAnd result (λ ended. ended.differences ≡ (tally.differences + 1) % 2 ^ 64) }
{
    match read {
        Ok(None) => Ok(tally),
        Ok(Some(_)) | Err(ReadError::Broken) => Ok(tally.counted(0, false)),
        Err(ReadError::Io(error)) => Err(error),
    }
}

fn replay<R: io::Read>(source: &mut R, bytes: &mut [u8], words: &mut [u32]) -> io::Result<Tally> {
    let mut tally = Tally::default();
    for _ in 0..MOST_RECORDS {
        match read_record(source, bytes, words) {
            Ok(Some(count)) => tally = replayed(tally, &words[..count]),
            read => return ended(tally, read),
        }
    }
    Ok(tally)
}

// The `ensures` says the length, which lending the array as a slice needs.
fn no_bytes() -> [u8; MOST_BYTES]
    ensures { 1800000 ≡ length result }
{
    [0; MOST_BYTES]
}

fn no_words() -> [u32; MOST_WORDS]
    ensures { 200000 ≡ length result }
{
    [0; MOST_WORDS]
}

fn main(rt: HostRuntime) -> io::Result<()> {
    let mut source = BufReader::with_capacity(rt.alloc(), AHEAD, rt.reader())?;
    let mut bytes = no_bytes();
    let mut words = no_words();
    let tally = replay(&mut source, &mut bytes, &mut words)?;
    tally.report(&mut io::writer(&rt))
}
