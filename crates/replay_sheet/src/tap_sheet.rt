// The operations on tap sheets. Each takes the words behind its code: its inputs, then the answers.
use records::lent::room;
use records::record::Words;
use records::span::Span;
use sheet::{TapSheet, sheet_count, write_sheet};

// The most entries that a writer is lent the lengths of.
const MOST_LENGTHS: usize = 64;

pub(crate) fn count(mut words: Words<'_>) -> bool {
    let mut read = room::<u8>();
    let bytes = words.slice().put(&mut read);
    words.same_answer(sheet_count(bytes)) && words.is_empty()
}

// The offset, and then the size.
pub(crate) fn entry(mut words: Words<'_>) -> bool {
    let mut read = room::<u8>();
    let bytes = words.slice().put(&mut read);
    let count = words.long();
    let k = words.long();
    let sheet = TapSheet { bytes, count };
    let place = sheet.place(k).map(|place| (place.offset, place.size));
    words.same_answer(place) && words.is_empty()
}

// A writer's length: a word, widened with its sign, so that some are longer than any slice.
fn widened(word: i32) -> usize {
    i64::from(word).cast_unsigned() as usize
}

pub(crate) fn write(mut words: Words<'_>) -> bool {
    let mut read = room::<u8>();
    let mut written = room::<u8>();
    let joined = words.slice().put(&mut read);
    let lent = words.slice();
    let lengths: [usize; MOST_LENGTHS] = std::array::from_fn(|i| widened(lent.element(i)));
    let count = lent.length.min(MOST_LENGTHS);
    let span = Span::of(words.slice(), &mut written);
    let answer = write_sheet(joined, &lengths[..count], span.places);
    words.same_answer(answer) && span.is_same(&mut words) && words.is_empty()
}
