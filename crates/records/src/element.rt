// What a record has in one word: an element of a slice, or a value by itself.
ghost use Rattle.std.specs.Prelude.{◌≡◌, ℕ, Bool, ◌*◌, ◌%◌, ◌^◌, ◌<◌, ◌==◌};
ghost use Rattle.std.specs.Int.{w16, w32};
ghost use Rattle.std.specs.Mem.{type_size};
ghost use Rattle.std.proofs.Common.{to_z};
ghost use Rattle.records.specs.Comparison.{float_of, bits_of, same_bits};

use words::{bits_of_f32, f32_of_bits};

pub trait Element: Copy + PartialEq {
    // What a word stands for.
    ghost meant: { ℕ → Self };

    // Whether an answer's word is this value.
    ghost recorded: { Self → ℕ → Bool };

    fn from_word(word: u32) -> Self
        ensures { result ≡ meant word };

    // With no default: its clause is each type's own `recorded`, which one over `==` would meet by a law beside, one for each type.
    fn is_recorded_as(self, word: u32) -> bool
        ensures { result ≡ recorded self word };

    // Whether two values would be the same answer.
    fn is_same(self, other: Self) -> bool {
        self == other
    }
}

impl Element for u32 {
    ghost meant = { λ word. word };

    ghost recorded = { λ x word. word == x };

    fn from_word(word: u32) -> u32 {
        word
    }

    fn is_recorded_as(self, word: u32) -> bool {
        word == self
    }
}

impl Element for i32 {
    ghost meant = { λ word. to_z w32 word };

    ghost recorded = { λ x word. same_bits w32 (to_z w32 word) x };

    fn from_word(word: u32) -> i32 {
        word.cast_signed()
    }

    fn is_recorded_as(self, word: u32) -> bool {
        i32::from_word(word) == self
    }
}

// The low 16 bits.
impl Element for i16 {
    ghost meant = { λ word. to_z w16 (word % 65536) };

    ghost recorded = { λ x word. same_bits w16 (to_z w16 (word % 65536)) x };

    fn from_word(word: u32) -> i16 {
        ((word % 65536) as u16).cast_signed()
    }

    fn is_recorded_as(self, word: u32) -> bool {
        i16::from_word(word) == self
    }
}

// The low 8 bits.
impl Element for u8 {
    ghost meant = { λ word. word % 256 };

    ghost recorded = { λ x word. word % 256 == x };

    fn from_word(word: u32) -> u8 {
        (word % 256) as u8
    }

    fn is_recorded_as(self, word: u32) -> bool {
        u8::from_word(word) == self
    }
}

// The bits; those of every NaN are one NaN.
#[tactic(auto, using(crate::proofs::Floats::bits_are, crate::proofs::Floats::float_is))]
impl Element for f32 {
    ghost meant = { float_of };

    ghost recorded = { λ x word. word == bits_of x };

    fn from_word(word: u32) -> f32 {
        f32_of_bits(word)
    }

    fn is_recorded_as(self, word: u32) -> bool {
        word == bits_of_f32(self)
    }

    fn is_same(self, other: f32) -> bool {
        bits_of_f32(self) == bits_of_f32(other)
    }
}

// An element of which generic code may make room for the longest slice, on the stack.
pub trait OnStack: Element {
    // Does nothing: its clause says that room for the longest slice fits into memory, which generic code has to know before it makes one.
    fn fits()
        ensures { 65600 * type_size Self.row < 2 ^ 63 };
}

impl OnStack for u32 {
    fn fits() {}
}

impl OnStack for i32 {
    fn fits() {}
}

impl OnStack for i16 {
    fn fits() {}
}

impl OnStack for u8 {
    fn fits() {}
}

impl OnStack for f32 {
    fn fits() {}
}
