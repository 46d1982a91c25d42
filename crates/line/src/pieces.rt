// 01, section 6, "Next piece".
ghost use Rattle.std.specs.Prelude.{◌≡◌};
ghost use Rattle.line.specs.Pieces.{next_piece};

// The untaken rest of the piece last fed, or the waiting piece where none is left; a count past the end is the length.
pub fn next_piece<'a>(last: &'a [i32], taken: usize, waiting: &'a [i32]) -> &'a [i32]
    ensures { result.now ≡ next_piece last.now taken waiting.now }
{
    if taken < last.len() {
        &last[taken..]
    } else {
        waiting
    }
}
