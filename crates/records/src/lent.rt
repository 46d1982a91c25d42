// Slices that a record lends: a word each for length, pattern, stride and count of those listed, then the listed elements. An element behind them is the
// pattern plus its index times the stride, modulo 2^32. No words at all lend zeros.
ghost use Rattle.std.specs.Prelude.{◌≡◌, ℕ, ◌+◌, ◌*◌, ◌%◌, ◌<◌, OnOk, IfOk, length, min, vec_len, slice_index_or};
ghost use Rattle.records.specs.Comparison.{lent_word};

use crate::element::Element;
use std::alloc::{AllocError, Global};

// The most elements of a slice: 01's limit of 65,536, and some more to exceed it.
const LONGEST: usize = 65600;

// Room for every slice. The `ensures` says the length, which lending the array as a slice needs.
pub fn room<T: Element>() -> [T; LONGEST]
    ensures { length result ≡ 65600 }
{
    [T::from_word(0); LONGEST]
}

#[derive(Clone, Copy)]
pub struct Lent<'a> {
    pub length: usize,
    pub pattern: u32,
    pub stride: u32,
    pub listed: &'a [u32],
}

impl Lent<'_> {
    pub fn element<T: Element>(&self, i: usize) -> T
        ensures { result ≡ T.meant (lent_word self.now.pattern self.now.stride self.now.listed.now i) }
    {
        T::from_word(
            self.listed
                .get(i)
                .copied()
                .unwrap_or(self.patterned((i % 4294967296) as u32)),
        )
    }

    fn patterned(&self, i: u32) -> u32
        ensures { result ≡ (self.now.pattern + self.now.stride * i) % 4294967296 }
    {
        self.pattern.wrapping_add(self.stride.wrapping_mul(i))
    }

    // The first elements, in an array of a state.
    pub fn array<T: Element, const N: usize>(&self) -> [T; N] {
        std::array::from_fn(|i| self.element(i))
    }

    // The elements, in memory that is asked for: of the longest slice at most.
    pub(crate) fn elements<T: Element>(&self, alloc: Global) -> Result<Vec<T>, AllocError>
        ensures { IfOk result (λ all. vec_len all ≡ min self.now.length 65600) }
    {
        (0..self.length.min(LONGEST))
            .map(|i| self.element(i))
            .collect(alloc)
    }

    // The elements, as many as there is room for, at its front.
    pub fn put<'b, T: Element>(&self, room: &'b mut [T]) -> &'b mut [T]
        ensures length { length result.now ≡ min self.now.length (length room.old) }
        ensures elements { (i : ℕ) (d : T) → i < length result.now →
            slice_index_or result.now i d ≡ T.meant (lent_word self.now.pattern self.now.stride self.now.listed.now i) }
    {
        let count = self.length.min(room.len());
        let places = &mut room[..count];
        for (i, place) in places.iter_mut().enumerate() {
            *place = self.element(i);
        }
        places
    }
}
