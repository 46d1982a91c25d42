// Reading a record: each word is eight hexadecimal digits and one byte, a blank or, after the last, the line's end.
ghost use Rattle.std.specs.Prelude.{◌≡◌, ℕ, ◌*◌, ◌/◌, ◌<◌, ◌≤◌, Some, None, Ok, false, length, take, IfOk, IfSome, IsTrue};
ghost use Rattle.std.specs.Fmt.{digit_glyph};
ghost use Rattle.std.specs.Io.{ReadsAtMost};
ghost use Rattle.std.specs.Io.KnownBytes.{Consumes, IsAtEnd, ReadConsumes};
ghost use Rattle.replay.specs.Text.{record_text, separator_of, word_text, words_text};

use std::io;
use std::io::ErrorKind;

// Bytes of a word.
const WIDTH: usize = 9;

const BLANK: u8 = b' ';

const LINE_END: u8 = b'\n';

// Why no record was read.
#[derive(Debug, Drop)]
pub(crate) enum ReadError {
    // Text that is no record, or one that is cut short or has too many words.
    Broken,
    Io(io::Error),
}

impl From<io::Error> for ReadError {
    fn from(error: io::Error) -> ReadError {
        ReadError::Io(error)
    }
}

// The value of a digit. By hand: `to_digit` takes capitals too, which no word is written with.
fn digit(b: u8) -> Option<u32>
    ensures spelled { IfSome result (λ d. (d < 16) × (b ≡ digit_glyph false d)) }
    ensures value { (d : ℕ) → d < 16 → b ≡ digit_glyph false d → result ≡ Some d }
{
    match b {
        b'0'..=b'9' => Some(u32::from(b - b'0')),
        b'a'..=b'f' => Some(u32::from(b - b'a') + 10),
        _ => None,
    }
}

// The word at the front, if the byte behind it is `separator`.
fn parse_word(text: &[u8], separator: u8) -> Option<u32>
    ensures { IfSome result (λ x. take 9 text.now ≡ word_text x separator) }
{
    if text.len() < WIDTH || text[8] != separator {
        return None;
    }
    let mut value: u32 = 0;
    for b in &text[..8] {
        value = value * 16 + digit(*b)?;
    }
    Some(value)
}

fn separator(i: usize, count: usize) -> u8
    requires { i < count }
    ensures { result ≡ separator_of i count }
{
    if i + 1 < count { BLANK } else { LINE_END }
}

// Fills `words` from a text that has exactly so many. By their numbers, which say the byte behind each: over `chunks_exact` with `enumerate` the proof did not close.
fn parse(text: &[u8], words: &mut [u32]) -> bool
    ensures { IsTrue result → take (length words.new * 9) text.now ≡ words_text (length text.now / 9) (length words.new) words.new }
{
    let count = text.len() / WIDTH;
    for i in 0..words.len() {
        if count <= i {
            return false;
        }
        let Some(x) = parse_word(&text[i * WIDTH..], separator(i, count)) else {
            return false;
        };
        words[i] = x;
    }
    true
}

// One read, tried again where a signal interrupts it: no more often than a loop with an end allows.
fn read_some<R: io::Read>(source: &mut R, buf: &mut [u8]) -> io::Result<usize>
    ensures bound { ReadsAtMost result buf.new }
    ensures bytes { ReadConsumes (R.remaining source.old) (R.remaining source.new) result buf.new }
{
    for _ in 0..u64::MAX {
        match source.read(buf) {
            Err(e) if e.kind() == ErrorKind::Interrupted => {}
            answer => return answer,
        }
    }
    source.read(buf)
}

// Reads until `buf` is full or the input ends, and answers how many bytes it put at the front of it. A read that gives nothing ends
// it, so as many turns as there are places do; over a `while` with a measure the proof's check does not come to an end.
fn read_full<R: io::Read>(source: &mut R, buf: &mut [u8]) -> io::Result<usize>
    ensures within { IfOk result (λ n. n ≤ length buf.new) }
    ensures consumed { IfOk result (λ n. Consumes (R.remaining source.old) (R.remaining source.new) (take n buf.new)) }
    ensures ended { IfOk result (λ n. n < length buf.new → IsAtEnd (R.remaining source.new)) }
{
    let mut done = 0;
    for _ in 0..buf.len() {
        if done >= buf.len() {
            return Ok(done);
        }
        let got = read_some(source, &mut buf[done..])?;
        if got == 0 {
            return Ok(done);
        }
        done += got;
    }
    Ok(done)
}

// How many words the next record has, which are then at the front of `words`, by way of `bytes`; or nothing at the list's end.
pub(crate) fn read_record<R: io::Read>(
    source: &mut R,
    bytes: &mut [u8],
    words: &mut [u32],
) -> Result<Option<usize>, ReadError>
    ensures room { IfOk result (λ found. IfSome found (λ count. count ≤ length words.new)) }
    ensures spelled { IfOk result (λ found. IfSome found (λ count. Consumes (R.remaining source.old) (R.remaining source.new) (record_text count words.new))) }
    ensures end { result ≡ Ok None → IsAtEnd (R.remaining source.old) }
{
    let mut header = [0u8; WIDTH];
    let got = read_full(source, &mut header)?;
    if got == 0 {
        return Ok(None);
    }
    let count = parse_word(&header[..got], BLANK).ok_or(ReadError::Broken)? as usize;
    if words.len() < count || bytes.len() / WIDTH < count {
        return Err(ReadError::Broken);
    }
    let text = &mut bytes[..count * WIDTH];
    if read_full(source, text)? < text.len() || !parse(text, &mut words[..count]) {
        return Err(ReadError::Broken);
    }
    Ok(Some(count))
}
