// A span that a record lends: the places that a call may write.
ghost use Rattle.std.specs.Prelude.{◌≡◌, ℕ, ◌<◌, length, min, slice_index_or};
ghost use Rattle.records.specs.Comparison.{lent_word};

use crate::element::Element;
use crate::lent::Lent;
use crate::record::Words;

#[derive(Drop)]
pub struct Span<'a, 'b, T> {
    lent: Lent<'a>,
    pub places: &'b mut [T],
}

impl<'a, 'b, T: Element> Span<'a, 'b, T> {
    pub fn of(lent: Lent<'a>, room: &'b mut [T]) -> Span<'a, 'b, T>
        ensures length { length result.places.now ≡ min lent.entry.length (length room.old) }
        ensures elements { (i : ℕ) (d : T) → i < length result.places.now →
            slice_index_or result.places.now i d ≡ T.meant (lent_word lent.entry.pattern lent.entry.stride lent.entry.listed.now i) }
    {
        Span {
            lent,
            places: lent.put(room),
        }
    }

    pub fn is_same(&self, answers: &mut Words<'_>) -> bool {
        answers.same_span(self.places, self.lent)
    }
}
