// Values that stand one behind the other, read.
ghost use Rattle.std.specs.Prelude.{◌≡◌, ◌+◌, ◌*◌, ◌≤◌, length};
ghost use Rattle.words.specs.Fields.{values_at, floats_at};

use sheet::fields::le32_at;
use words::{Word, is_f32_bits};

// Reads as many values as there are places for them, from a place on.
pub(crate) fn get_all<W: Word>(bytes: &[u8], at: usize, into: &mut [W])
    requires { at + W.SIZE * length into.old ≤ length bytes.now }
    ensures { into.new ≡ values_at W.value_at W.SIZE bytes.now at (length into.old) }
{
    for (i, x) in into.iter_mut().enumerate() {
        *x = W::read(bytes, at + W::SIZE * i);
    }
}

// Whether n words from a place on are floats as parking writes them. A loop: over `(0..n).all(..)` the proof did not close, since the closure calls two functions, and no search
// found from the run's facts what it answers of each number.
pub(crate) fn are_floats(bytes: &[u8], at: usize, n: usize) -> bool
    requires { at + 4 * n ≤ length bytes.now }
    ensures { result ≡ floats_at bytes.now at n }
{
    for i in 0..n {
        if !is_f32_bits(le32_at(bytes, at + 4 * i)) {
            return false;
        }
    }
    true
}
