// Numbers as the little-endian bytes that stand for them in a sheet.
ghost use Rattle.std.specs.Prelude.{◌≡◌, ℕ, List, FitsSigned};
ghost use Rattle.std.specs.Int.{w16, w32};
ghost use Rattle.sheet.specs.Laid.{laid_in};
ghost use Rattle.words.specs.Fields.{IsFloat, i16_bytes, i32_bytes, f32_bytes, i16_at, i32_at, f32_at};
ghost use Rattle.words.specs.inner.Reading.{Reads, reads_i16, reads_i32, reads_f32};

use crate::floats::{bits_of_f32, f32_of_bits};
use sheet::fields::{le16_at, le32_at};
use sheet::lay;

pub trait Word: Copy {
    ghost SIZE: { ℕ };

    // How many bytes a value has.
    const SIZE: usize;

    ghost bytes: { Self → List ℕ };

    // The value that stands at a place; past the end there are zeros.
    ghost value_at: { List ℕ → ℕ → Self };

    ghost IsValue: { Self → Type 0 };

    // A span without room stays as it is.
    fn lay(self, span: &mut [u8], at: usize)
        ensures { span.new ≡ laid_in at (bytes self) span.old };

    fn read(sheet: &[u8], at: usize) -> Self
        ensures { result ≡ value_at sheet.now at };

    // Reading what was written gives it again.
    ghost reads_back: { Reads bytes value_at SIZE IsValue };
}

impl Word for i16 {
    ghost SIZE = { 2 };

    const SIZE: usize = 2;

    ghost bytes = { i16_bytes };

    ghost value_at = { i16_at };

    ghost IsValue = { FitsSigned w16 };

    ghost reads_back = { reads_i16 };

    fn lay(self, span: &mut [u8], at: usize) {
        lay(span, at, &i16::to_le_bytes(self));
    }

    fn read(sheet: &[u8], at: usize) -> i16 {
        le16_at(sheet, at).cast_signed()
    }
}

impl Word for i32 {
    ghost SIZE = { 4 };

    const SIZE: usize = 4;

    ghost bytes = { i32_bytes };

    ghost value_at = { i32_at };

    ghost IsValue = { FitsSigned w32 };

    ghost reads_back = { reads_i32 };

    fn lay(self, span: &mut [u8], at: usize) {
        lay(span, at, &i32::to_le_bytes(self));
    }

    fn read(sheet: &[u8], at: usize) -> i32 {
        le32_at(sheet, at).cast_signed()
    }
}

impl Word for f32 {
    ghost SIZE = { 4 };

    const SIZE: usize = 4;

    ghost bytes = { f32_bytes };

    ghost value_at = { f32_at };

    ghost IsValue = { IsFloat };

    ghost reads_back = { reads_f32 };

    fn lay(self, span: &mut [u8], at: usize) {
        lay(span, at, &bits_of_f32(self).to_le_bytes());
    }

    fn read(sheet: &[u8], at: usize) -> f32 {
        f32_of_bits(le32_at(sheet, at))
    }
}
