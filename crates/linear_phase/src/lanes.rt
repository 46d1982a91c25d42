// Outputs of samples in a row, so many sums side by side that the machine adds several at once; each sum keeps its own order.
ghost use Rattle.std.specs.Prelude.{◌≡◌, false, ◌++◌, ◌+◌, ◌≤◌, min, length, take, drop, unwrap_or, option_copied};
ghost use Rattle.linear_phase.specs.inner.Handed as H;
ghost use Rattle.linear_phase.specs.inner.Lanes as A;

use crate::few::outputs_once;
use crate::kinds::{Folded, pair};

// The sums of a whole group, which go side by side.
pub(crate) const LANES: usize = 16;

// The most outputs that are made at once.
pub(crate) const MORE: usize = 24;

// One pair more for each sum: (new[j] ± old[j]) × tap. Here and below the number reads the other lists: of what stands behind `iter_mut` in a zip a proof knows the lengths alone.
fn add_pairs(acc: &mut [f32], old: &[f32], new: &[f32], tap: f32, minus: bool)
    requires { (length acc.old ≤ length old.now) × (length acc.old ≤ length new.now) }
    ensures { acc.new ≡ A.pairs_added minus tap old.now new.now acc.old }
{
    for (j, sum) in acc.iter_mut().enumerate() {
        *sum += pair(minus, new[j], old[j]) * tap;
    }
}

// The centre samples, one for each sum.
fn add_centres(acc: &mut [f32], centres: &[f32])
    requires { length acc.old ≤ length centres.now }
    ensures { acc.new ≡ A.centres_added centres.now acc.old }
{
    for (j, sum) in acc.iter_mut().enumerate() {
        *sum += centres[j];
    }
}

// The sums of pairs at the windows that begin at the first places of the line, as many as there are zeros to begin with, t ascending.
fn sums_at(acc: &mut [f32], line: &[f32], fir: Folded<'_>)
    requires { (fir.long + length acc.old ≤ length line.now) × (acc.old ≡ A.no_sums (length acc.old)) }
    ensures { acc.new ≡ A.window_sums fir.entry.kind.antisymmetric fir.entry.taps.now fir.entry.long line.now (length acc.old) (length fir.entry.taps.now) }
{
    let long = fir.long;
    let minus = fir.kind.antisymmetric;
    for (t, tap) in fir.taps.iter().enumerate() {
        add_pairs(acc, &line[t..], &line[long - t..], *tap, minus);
    }
}

// The outputs at these windows; the centre is added last. How many there are is known where the array of them is made: so one body serves groups of any size, and the compiler keeps each in
// registers.
pub(crate) fn outputs_at(acc: &mut [f32], line: &[f32], fir: Folded<'_>)
    requires { (fir.long + length acc.old ≤ length line.now) × (acc.old ≡ A.no_sums (length acc.old)) }
    ensures { acc.new ≡ H.values_of fir.entry line.now (length acc.old) }
{
    sums_at(acc, line, fir);
    if fir.kind.has_centre() {
        add_centres(acc, &line[fir.taps.len()..]);
    }
}

// A whole group of them, at the windows from a place of the line on. Inlined where it is called, so that what is known of a filter there is known here.
#[inline(always)]
pub(crate) fn group_at(line: &[f32], from: usize, fir: Folded<'_>) -> [f32; LANES]
    requires { from + (fir.long + 16) ≤ length line.now }
    ensures { result ≡ H.values_of fir.entry (drop from line.now) 16 }
{
    let mut y = [0.0f32; LANES];
    outputs_at(&mut y, &line[from..], fir);
    y
}

// All of a group in front of a span. Place by place: with copy_from_slice, three outputs of a filter take 24 instructions more.
pub(crate) fn put_group(span: &mut [f32], y: &[f32])
    requires { length y.now ≤ length span.old }
    ensures { span.new ≡ A.put_in_front y.now span.old }
{
    for (j, x) in y.iter().enumerate() {
        span[j] = *x;
    }
}

// The same of a whole group.
pub(crate) fn put_all(span: &mut [f32], y: [f32; LANES])
    requires { 16 ≤ length span.old }
    ensures { span.new ≡ A.put_in_front y span.old }
{
    put_group(span, &y);
}

// One of two lines.
#[tactic(auto, unfolding(crate::specs::inner::Lanes::picked))]
fn picked<'a>(first: bool, a: &'a [f32], b: &'a [f32]) -> &'a [f32]
    ensures { result.now ≡ A.picked first a.now b.now }
{
    if first { a } else { b }
}

// The lent samples, or else those of the span itself.
pub(crate) fn samples_of<'a>(src: Option<&'a [f32]>, span: &'a [f32]) -> &'a [f32]
    ensures { result.now ≡ unwrap_or (option_copied src.entry) span.now }
{
    src.unwrap_or(span)
}

// Where the window of output `at` begins: on the tape, which has the delay in front, or among the samples.
#[tactic(auto, unfolding(crate::specs::inner::Lanes::window_start))]
fn window_start(front: bool, at: usize, long: usize) -> usize
    requires { front ≡ false → long ≤ at }
    ensures { result ≡ A.window_start front at long }
{
    if front { at } else { at - long }
}

// An output of each sample into the span, the last whole group first. The samples are the lent ones, or else those of the span itself, whose places before the
// group are still samples. The windows that begin in the delay are read on the tape, which has the delay and the first samples; so are those of the group in front and
// of what is left before whole groups.
#[inline(always)]
pub(crate) fn outputs_back<'a>(
    tape: &'a [f32],
    src: Option<&'a [f32]>,
    fir: &Folded<'_>,
    span: &mut [f32],
)
    requires in_bounds { (fir.now.long + min (length span.old) (fir.now.long + 16) ≤ length tape.now) × (fir.now.long + 32 ≤ length tape.now) × (16 ≤ length span.old) }
    requires ahead { let samples = unwrap_or (option_copied src) span.old in
        let n = min (length span.old) 32 in
        take n (drop fir.now.long tape.now) ≡ take n samples }
    requires on_tape { A.OnTape fir.now.long tape.now (unwrap_or (option_copied src) span.old) (length span.old) }
    ensures { let z = take fir.now.long tape.now ++ unwrap_or (option_copied src.entry) span.old in
        span.new ≡ H.values_of fir.now z (length span.old) }
{
    // By hand: it goes by groups from the end on, and while one is written the samples before it are read; `end` tells what is left in front.
    let mut end = span.len();
    while MORE < end {
        let at = end - LANES;
        let front = at < fir.long;
        let from = window_start(front, at, fir.long);
        let samples = samples_of(src, span);
        let line = picked(front, tape, samples);
        let y = group_at(line, from, *fir);
        put_all(&mut span[at..end], y);
        end = at;
    }
    outputs_once(tape, fir, &mut span[..end]);
}
