// Tap sheets. A part of the bytes can't cross, so an entry crosses as its offset and its length.
ghost use Rattle.std.specs.Prelude.{◌≡◌, ◌<◌, length, take, drop};
ghost use Rattle.sheet.specs.Sheet as S;

use crate::answers::{number, placed};
use sheet::{TapSheet, sheet_count, write_sheet};

#[unsafe(no_mangle)]
pub extern "C" fn gauge_raw_sheet_count(bytes: &[u8], count: &mut usize) -> usize
    ensures answer { record { number = result; value = count.new } ≡ S.sheet_answer S.Rule.present bytes.now }
    ensures earlier { S.le16 bytes.now 0 < S.mark → record { number = result; value = count.new } ≡ S.sheet_answer S.Rule.former bytes.now }
{
    let answer = sheet_count(bytes);
    *count = answer.unwrap_or(0);
    number(&answer)
}

#[unsafe(no_mangle)]
pub extern "C" fn gauge_raw_sheet_entry(
    bytes: &[u8],
    count: usize,
    k: usize,
    offset: &mut usize,
    size: &mut usize,
) -> usize
    ensures answer { record { number = result; value = size.new } ≡ S.entry_answer S.Rule.present bytes.now count k }
    ensures offset { offset.new ≡ S.entry_offset S.Rule.present bytes.now count k }
    ensures part { take size.new (drop offset.new bytes.now) ≡ S.entry S.Rule.present bytes.now count k }
    ensures earlier { S.le16 bytes.now 0 < S.mark → record { number = result; value = size.new } ≡ S.entry_answer S.Rule.former bytes.now count k }
{
    let answer = TapSheet { bytes, count }.place(k);
    let place = placed(answer);
    *offset = place.offset;
    *size = place.size;
    number(&answer)
}

#[unsafe(no_mangle)]
pub extern "C" fn gauge_raw_sheet_write(
    joined: &[u8],
    lengths: &[usize],
    span: &mut [u8],
    written: &mut usize,
) -> usize
    ensures answer { record { number = result; value = written.new } ≡ S.writer_answer joined.now lengths.now (length span.old) }
    ensures span { span.new ≡ S.writer_span S.Rule.present joined.now lengths.now span.old }
    ensures reads { result ≡ 0 → S.ReadsBack S.Rule.present joined.now lengths.now (take written.new span.new) }
    ensures older { result ≡ 0 → S.ForOlder joined.now lengths.now (take written.new span.new) }
{
    let answer = write_sheet(joined, lengths, span);
    *written = answer.unwrap_or(0);
    number(&answer)
}
