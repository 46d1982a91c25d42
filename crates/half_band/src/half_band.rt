// What the half-band filters do to a window of the last samples, the newest at its end.
ghost use Rattle.std.specs.Prelude.{◌≡◌, [], ◌∷◌, ◌≤◌, ◌+◌, ◌*◌, ◌/◌, ◌%◌, length, take, drop};
ghost use Rattle.std.specs.Float.{binary32};
ghost use Rattle.std.specs.Float.Ieee.{add, mul};
ghost use Rattle.theory.specs.Sections.{state, outs};
ghost use Rattle.half_band.specs.HalfBand.{flat};
ghost use Rattle.half_band.specs.Windows.{slid, folded, dec_value, int_value, pairs, interpolator};
ghost use Rattle.half_band.specs.inner.Decimator.{decimator};

use crate::limits::{DEC_DELAYS, INT_DELAYS};
use float::span::lay;

// c[t] × (left + right)
fn gain(tap: f32, left: f32, right: f32) -> f32
    ensures { result ≡ mul binary32 tap (add binary32 left right) }
{
    tap * (left + right)
}

// The taps of a filter, so many that its window has places on a line. The window stays a parameter beside them, whose length ten functions ask for. A struct of both
// was tried small: by value it can't be handed on to a call, and lent, each of the ten would say that its references stay. It would be two, too, of four places a tap or
// of two, and what reads a window on a line is lent that as it lies.
#[derive(Clone, Copy)]
pub(crate) struct Taps<'a> {
    pub all: &'a [f32],
    ghost few: { (1 ≤ length all.now) × (length all.now ≤ 23) },
}

// From start, tap × (sum of two places as far from the window's two ends), tap 0 first. By number, as the definition goes: without it three iterators would be zipped, of
// the taps and of the window in steps from either end. It has 32 bits, so that a machine of 32 bits steps along the taps and the left half by their addresses.
#[tactic(auto, unfolding(crate::specs::Windows::folded))]
fn folded_sum(window: &[f32], taps: Taps, step: usize, start: f32) -> f32
    requires { (1 ≤ step) × (length window.now ≡ 2 * step * length taps.all.now) }
    ensures { result ≡ folded step taps.entry.all.now window.now start (length taps.entry.all.now) }
{
    let all = taps.all;
    let n = window.len();
    let mut acc = start;
    for i in 0..all.len() as u32 {
        let t = i as usize;
        acc += gain(all[t], window[step * t], window[n - step - step * t]);
    }
    acc
}

// The decimator's output at a window.
#[tactic(auto, unfolding(crate::specs::Windows::dec_value))]
pub(crate) fn dec_at(window: &[f32], taps: Taps) -> f32
    requires { length window.now ≡ 4 * length taps.all.now }
    ensures { result ≡ dec_value taps.entry.all.now window.now }
{
    let centre = window[2 * taps.all.len() - 1];
    0.5 * folded_sum(window, taps, 2, centre)
}

// The decimator takes a pair in, and gives its output. The window moves by two places a turn: of a loop by one the compiler makes a call of the C library's `memmove`, which
// newlib does by bytes, 16 instructions a place on a Cortex-M4F for some 2.
pub(crate) fn take_pair(window: &mut [f32], taps: Taps, a: f32, b: f32) -> f32
    requires { length window.old ≡ 4 * length taps.all.now }
    ensures { (window.new ≡ slid window.old (a ∷ b ∷ [])) × (result ≡ dec_value taps.entry.all.now (slid window.old (a ∷ b ∷ []))) }
{
    let n = window.len();
    for i in 0..2 * taps.all.len() as u32 - 1 {
        let at = 2 * i as usize;
        window[at] = window[at + 2];
        window[at + 1] = window[at + 3];
    }
    window[n - 2] = a;
    window[n - 1] = b;
    dec_at(window, taps)
}

// The window in front of a line moves along it by pairs, and the outputs fill the span. By number: of what stands behind `iter_mut` in a zip with the windows a proof knows
// the lengths alone.
fn decimate_along(line: &[f32], taps: Taps, span: &mut [f32])
    requires { (length line.now ≡ 4 * length taps.all.now + 2 * length span.old) }
    ensures { let long = 4 * length taps.entry.all.now in
        let line = line.entry.now in
        span.new ≡ outs (decimator taps.entry.all.now) (take long line) (pairs (drop long line)) }
{
    let long = 4 * taps.all.len();
    for (i, place) in span.iter_mut().enumerate() {
        let from = 2 * i + 2;
        *place = dec_at(&line[from..from + long], taps);
    }
}

// Places for the longest window and for as many samples as fill it.
const LINE: usize = 2 * DEC_DELAYS;

// The pairs of src are put behind the window on a line of their own, along which the window moves, and their outputs fill dst.
fn decimate_first(window: &mut [f32], taps: Taps, src: &[f32], dst: &mut [f32])
    requires { (length window.old ≡ 4 * length taps.all.now) × (length src.now ≡ 2 * length dst.old) × (length src.now ≤ 96) }
    ensures { (window.new ≡ state (decimator taps.entry.all.now) window.old (pairs src.now)) × (dst.new ≡ outs (decimator taps.entry.all.now) window.old (pairs src.now)) }
{
    let past = src.len() + window.len();
    let mut line = [0.0; LINE];
    lay(&mut line, window, src);
    window.copy_from_slice(&line[src.len()..past]);
    decimate_along(&line[..past], taps, dst);
}

// The decimator takes the pairs of src in, and their outputs fill dst. Behind as many pairs as fill the window it stands in src, so that nothing is moved for a pair.
pub(crate) fn decimate(window: &mut [f32], taps: Taps, src: &[f32], dst: &mut [f32])
    requires { (length window.old ≡ 4 * length taps.all.now) × (length src.now ≡ 2 * length dst.old) }
    ensures { (window.new ≡ state (decimator taps.entry.all.now) window.old (pairs src.now)) × (dst.new ≡ outs (decimator taps.entry.all.now) window.old (pairs src.now)) }
{
    let long = window.len();
    let first = dst.len().min(2 * taps.all.len());
    decimate_first(window, taps, &src[..2 * first], &mut dst[..first]);
    if dst.len() <= first {
        return;
    }
    decimate_along(src, taps, &mut dst[first..]);
    window.copy_from_slice(&src[src.len() - long..]);
}

// The interpolator's even and odd output at a window.
#[tactic(auto, unfolding(crate::specs::Windows::int_value))]
fn both_at(window: &[f32], taps: Taps) -> (f32, f32)
    requires { length window.now ≡ 2 * length taps.all.now }
    ensures { result ≡ int_value taps.entry.all.now window.now }
{
    let even = window[taps.all.len()];
    let odd = folded_sum(window, taps, 1, 0.0);
    (even, odd)
}

// The interpolator takes a sample in, and gives its outputs. The window moves by two places a turn as above, and the last of an odd number behind the loop.
pub(crate) fn take_sample(window: &mut [f32], taps: Taps, x: f32) -> (f32, f32)
    requires { length window.old ≡ 2 * length taps.all.now }
    ensures { (window.new ≡ slid window.old (x ∷ [])) × (result ≡ int_value taps.entry.all.now (slid window.old (x ∷ []))) }
{
    let n = window.len();
    for i in 0..taps.all.len() as u32 - 1 {
        let at = 2 * i as usize;
        window[at] = window[at + 1];
        window[at + 1] = window[at + 2];
    }
    window[n - 2] = window[n - 1];
    window[n - 1] = x;
    both_at(window, taps)
}

// Places for an interpolator's longest window and for many samples more; all are set to zero in each call, so twice as many cost short blocks more than a window that
// moves to the front half as often saves long ones.
const SLIDE: usize = 2 * INT_DELAYS;

// The window from `at` on takes a sample in; what it returns is where the window is now.
#[tactic(auto, using(crate::proofs::Sliding::slid_on, crate::proofs::Sliding::slid_round))]
fn put_on(tape: &mut [f32; SLIDE], at: usize, long: usize, x: f32) -> usize
    requires { (1 ≤ long) × (long ≤ 46) × (at + long ≤ 96) }
    ensures { (result + long ≤ 96) × (take long (drop result tape.new) ≡ slid (take long (drop at tape.old)) (x ∷ [])) }
{
    let end = at + long;
    if end < SLIDE {
        tape[end] = x;
        return at + 1;
    }
    tape.copy_within(at.., 0);
    tape[long] = x;
    1
}

// The samples in the second half of the span go through the interpolator, and their outputs fill the span. An output is never written over a sample that is still
// to be read: output 2i + 1 stands n - 1 - i places before sample i. The window moves along a tape, so that it is not moved for each sample.
pub(crate) fn expand(window: &mut [f32], taps: Taps, span: &mut [f32])
    requires { (length window.old ≡ 2 * length taps.all.now) × (length span.old % 2 ≡ 0) }
    ensures { let samples = drop (length span.old / 2) span.old in
        (window.new ≡ state (interpolator taps.entry.all.now) window.old samples) × (span.new ≡ flat (outs (interpolator taps.entry.all.now) window.old samples)) }
{
    let n = span.len() / 2;
    let long = window.len();
    let mut tape = [0.0; SLIDE];
    tape[..long].copy_from_slice(window);
    let mut at = 0;
    // By the number: sample and outputs are places of the same span.
    for i in 0..n {
        at = put_on(&mut tape, at, long, span[n + i]);
        let (even, odd) = both_at(&tape[at..at + long], taps);
        span[2 * i] = even;
        span[2 * i + 1] = odd;
    }
    window.copy_from_slice(&tape[at..at + long]);
}

// The window in front of a line moves along it by samples, and their outputs fill the span.
fn interpolate_along(line: &[f32], taps: Taps, span: &mut [f32])
    requires { 2 * length line.now ≡ 4 * length taps.all.now + length span.old }
    ensures { let long = 2 * length taps.entry.all.now in
        let line = line.entry.now in
        span.new ≡ flat (outs (interpolator taps.entry.all.now) (take long line) (drop long line)) }
{
    let long = 2 * taps.all.len();
    // By the number: a window of the line and two places of the span go by it.
    for i in 0..span.len() / 2 {
        let from = i + 1;
        let both = both_at(&line[from..from + long], taps);
        span[2 * i] = both.0;
        span[2 * i + 1] = both.1;
    }
}

// The first samples of src, by way of the places that their outputs fill.
fn interpolate_first(window: &mut [f32], taps: Taps, src: &[f32], span: &mut [f32])
    requires { (length window.old ≡ 2 * length taps.all.now) × (length span.old ≡ 2 * length src.now) }
    ensures { (window.new ≡ state (interpolator taps.entry.all.now) window.old src.now) × (span.new ≡ flat (outs (interpolator taps.entry.all.now) window.old src.now)) }
{
    span[src.len()..].copy_from_slice(src);
    expand(window, taps, span);
}

// The interpolator takes src in, and its outputs fill the span. Behind as many samples as fill the window it stands in src, so that nothing is moved for a sample.
pub(crate) fn interpolate(window: &mut [f32], taps: Taps, src: &[f32], span: &mut [f32])
    requires { (length window.old ≡ 2 * length taps.all.now) × (length span.old ≡ 2 * length src.now) }
    ensures { (window.new ≡ state (interpolator taps.entry.all.now) window.old src.now) × (span.new ≡ flat (outs (interpolator taps.entry.all.now) window.old src.now)) }
{
    let long = window.len();
    let first = src.len().min(long);
    interpolate_first(window, taps, &src[..first], &mut span[..2 * first]);
    if src.len() <= first {
        return;
    }
    interpolate_along(src, taps, &mut span[2 * first..]);
    window.copy_from_slice(&src[src.len() - long..]);
}
