// One sample through a delay of the last samples, the oldest first.
ghost use Rattle.std.specs.Prelude.{◌≡◌, [], ◌∷◌, ◌++◌, ◌≤◌, length};
ghost use Rattle.half_band.specs.Windows.{slid};
ghost use Rattle.linear_phase.specs.inner.Handed as H;
ghost use Rattle.linear_phase.specs.Windows as W;

use crate::kinds::{Folded, pair};
use crate::moves::move_down;

// Σ (new ± old) × taps[t] from 0.0, t ascending, at the window of the delay with x behind it.
#[inline(always)]
fn sum_of<const MINUS: bool>(delay: &[f32], taps: &[f32], x: f32) -> f32
    requires { (1 ≤ length taps.now) × (length taps.now ≤ length delay.now) }
    ensures { result ≡ W.window_acc MINUS taps.now (delay.now ++ (x ∷ [])) (length taps.now) }
{
    let long = delay.len();
    let mut acc = 0.0f32 + pair(MINUS, x, delay[0]) * taps[0];
    // By the number: it begins at 1, and is a place of the taps, and of the delay from both ends.
    for t in 1..taps.len() {
        acc += pair(MINUS, delay[long - t], delay[t]) * taps[t];
    }
    acc
}

// That sum, by a loop for either sign: one loop for both makes sum and difference of each pair.
#[inline(always)]
fn sum_with(delay: &[f32], fir: Folded<'_>, x: f32) -> f32
    requires { length delay.now ≡ fir.long }
    ensures { result ≡ W.window_acc fir.entry.kind.antisymmetric fir.entry.taps.now (delay.now ++ (x ∷ [])) (length fir.entry.taps.now) }
{
    if fir.kind.antisymmetric {
        sum_of::<true>(delay, fir.taps, x)
    } else {
        sum_of::<false>(delay, fir.taps, x)
    }
}

// The output at that window; the centre is added last.
#[inline(always)]
pub(crate) fn value_with(delay: &[f32], fir: Folded<'_>, x: f32) -> f32
    requires { length delay.now ≡ fir.long }
    ensures { result ≡ H.value_of fir.entry (delay.now ++ (x ∷ [])) }
{
    let acc = sum_with(delay, fir, x);
    if fir.kind.has_centre() {
        acc + delay[fir.taps.len()]
    } else {
        acc
    }
}

// The delay moves down by one place, and x stands at its end.
fn move_in(delay: &mut [f32], x: f32)
    requires { 1 ≤ length delay.old }
    ensures { delay.new ≡ slid delay.old (x ∷ []) }
{
    let last = delay.len() - 1;
    move_down(delay, 1);
    delay[last] = x;
}

// The sample goes in, and its output comes out.
#[inline(always)]
pub(crate) fn filter_one(delay: &mut [f32], fir: Folded<'_>, x: f32) -> f32
    requires { length delay.old ≡ fir.long }
    ensures delay { delay.new ≡ slid delay.old (x ∷ []) }
    ensures value { result ≡ H.value_of fir.entry (delay.old ++ (x ∷ [])) }
{
    let y = value_with(delay, fir, x);
    move_in(delay, x);
    y
}
