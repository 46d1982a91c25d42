// A filter's taps in the places of a state, which are as many for every filter.
ghost use Rattle.std.specs.Prelude.{◌≡◌, ◌++◌, ◌<◌, ◌≤◌, ◌-◌, length, replicate};

// The values in front, and zeros behind them. Where they are more than the places, all are zeros.
pub fn padded<T: Copy, const N: usize>(values: &[T], zero: T) -> [T; N]
    ensures fits { length values.now ≤ N → result ≡ values.now ++ replicate (N - length values.now) zero }
    ensures more { N < length values.now → result ≡ replicate N zero }
{
    let mut places = [zero; N];
    if values.len() <= N {
        places[..values.len()].copy_from_slice(values);
    }
    places
}
