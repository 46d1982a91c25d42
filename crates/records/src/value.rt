// What a call answers with where it is not refused, compared with a record's words.
ghost use Rattle.std.specs.Prelude.{◌≡◌, ℕ, List, None, false, if◌then◌else◌, from_bits};
ghost use Rattle.std.specs.Float.{binary32};
ghost use Rattle.refusal.specs.Outcome.{none_moved};
ghost use Rattle.records.specs.Comparison.{Compares, after, after_long, bits_of};
ghost use Rattle.records.specs.Places.{Moves, after_option};
ghost use Rattle.records.specs.PlaceLaws.{nowhere_moves, after_moves, long_moves, option_moves, then_moves};

use crate::element::Element;
use crate::record::Words;
use refusal::{Moved, NONE_MOVED};

pub trait Value: Drop {
    // Where a comparison of the value stands that begins at a place.
    ghost place: { Self → List ℕ → ℕ → ℕ };

    // What an answer has in its place behind a refusal.
    ghost zeros: { Self };

    fn is_same(&self, words: &mut Words<'_>) -> bool
        ensures { Compares result words.old.left.now words.new.left.now (place self.now words.old.left.now 0) };

    fn zeros() -> Self
        ensures { result ≡ zeros };

    ghost moves: { (x : Self) → Moves (place x) };
}

impl Value for () {
    ghost place = { λ _ w at. at };

    ghost zeros = { tt };

    ghost moves = { λ _. nowhere_moves };

    fn is_same(&self, _words: &mut Words<'_>) -> bool {
        true
    }

    fn zeros() {}
}

// One word, 1 or 0.
impl Value for bool {
    ghost place = { λ x w at. after w at (if x then 1 else 0) };

    ghost zeros = { false };

    ghost moves = { λ x. after_moves (if x then 1 else 0) };

    fn is_same(&self, words: &mut Words<'_>) -> bool {
        words.same_flag(*self)
    }

    fn zeros() -> bool {
        false
    }
}

impl Value for u32 {
    ghost place = { λ x w at. after w at x };

    ghost zeros = { 0 };

    ghost moves = { after_moves };

    fn is_same(&self, words: &mut Words<'_>) -> bool {
        words.same(*self)
    }

    fn zeros() -> u32 {
        0
    }
}

impl Value for f32 {
    ghost place = { λ x w at. after w at (bits_of x) };

    ghost zeros = { from_bits binary32 0 };

    ghost moves = { λ x. after_moves (bits_of x) };

    fn is_same(&self, words: &mut Words<'_>) -> bool {
        words.same(*self)
    }

    fn zeros() -> f32 {
        0.0
    }
}

impl Value for usize {
    ghost place = { λ x w at. after_long w at x };

    ghost zeros = { 0 };

    ghost moves = { long_moves };

    fn is_same(&self, words: &mut Words<'_>) -> bool {
        words.same_long(*self)
    }

    fn zeros() -> usize {
        0
    }
}

// What a sample may have made: how many outputs, 0 or 1, and the output or 0.
impl<T: Element> Value for Option<T> {
    ghost place = { after_option T.recorded };

    ghost zeros = { None };

    ghost moves = { option_moves T.recorded };

    fn is_same(&self, words: &mut Words<'_>) -> bool {
        match self {
            None => words.same(0u32) && words.same(0u32),
            Some(x) => words.same(1u32) && words.same(*x),
        }
    }

    fn zeros() -> Option<T> {
        None
    }
}

// One behind the other.
impl<A: Value, B: Value> Value for (A, B) {
    ghost place = { λ x w at. B.place x.1 w (A.place x.0 w at) };

    ghost zeros = { (A.zeros, B.zeros) };

    ghost moves = { λ x. then_moves (A.moves x.0) (B.moves x.1) };

    fn is_same(&self, words: &mut Words<'_>) -> bool {
        self.0.is_same(words) && self.1.is_same(words)
    }

    fn zeros() -> (A, B) {
        (A::zeros(), B::zeros())
    }
}

// Samples taken, and then outputs written.
impl Value for Moved {
    ghost place = { λ x w at. after_long w (after_long w at x.taken) x.written };

    ghost zeros = { none_moved };

    ghost moves = { λ x. then_moves (long_moves x.taken) (long_moves x.written) };

    fn is_same(&self, words: &mut Words<'_>) -> bool {
        (self.taken, self.written).is_same(words)
    }

    fn zeros() -> Moved {
        NONE_MOVED
    }
}
