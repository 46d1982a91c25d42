// Outputs of a few samples in a row, at windows on a tape: by a group of exactly as many, of which the compiler knows the size, or one by one.
ghost use Rattle.std.specs.Prelude.{◌≡◌, ◌+◌, ◌≤◌, ◌<◌, length, take};
ghost use Rattle.linear_phase.specs.inner.Handed as H;

use crate::kinds::Folded;
use crate::lanes::{LANES, outputs_at, put_group};
use crate::one::value_with;

// Of exactly N, out of L that are made. Inlined where it is called: a group with two callers no longer keeps its sums in registers.
#[inline(always)]
pub(crate) fn group_of<const N: usize, const L: usize>(
    tape: &[f32],
    fir: Folded<'_>,
    span: &mut [f32],
)
    requires { (fir.long + L ≤ length tape.now) × (N ≤ L) × (length span.old ≡ N) }
    ensures { span.new ≡ H.values_of fir.entry tape.now (length span.old) }
{
    let mut y = [0.0f32; L];
    outputs_at(&mut y, tape, fir);
    put_group(span, &y[..N]);
}

// The output at the window in front of a line.
#[inline(always)]
fn value_at(line: &[f32], fir: Folded<'_>) -> f32
    requires { fir.long + 1 ≤ length line.now }
    ensures { result ≡ H.value_of fir.entry (take (fir.entry.long + 1) line.now) }
{
    value_with(&line[..fir.long], fir, line[fir.long])
}

// Outputs at the windows from the front of the tape on, one by one, each by its number, where its window begins.
#[inline(always)]
pub(crate) fn singles(tape: &[f32], fir: Folded<'_>, span: &mut [f32])
    requires { fir.long + length span.old ≤ length tape.now }
    ensures { span.new ≡ H.values_of fir.entry tape.now (length span.old) }
{
    for (i, place) in span.iter_mut().enumerate() {
        *place = value_at(&tape[i..], fir);
    }
}

// Fewer than a group. Three beside whole fours are made with a fourth, at whose window the tape has places too: they take more without.
fn few_outputs(tape: &[f32], fir: &Folded<'_>, span: &mut [f32])
    requires { (fir.now.long + length span.old < length tape.now) × (length span.old ≤ 15) }
    ensures { span.new ≡ H.values_of fir.now tape.now (length span.old) }
{
    match span.len() {
        0 => {}
        1 => group_of::<1, 1>(tape, *fir, span),
        2 => group_of::<2, 2>(tape, *fir, span),
        3 => group_of::<3, 4>(tape, *fir, span),
        4 => group_of::<4, 4>(tape, *fir, span),
        5 => group_of::<5, 5>(tape, *fir, span),
        6 => group_of::<6, 6>(tape, *fir, span),
        7 => group_of::<7, 8>(tape, *fir, span),
        8 => group_of::<8, 8>(tape, *fir, span),
        9 => group_of::<9, 9>(tape, *fir, span),
        10 => group_of::<10, 10>(tape, *fir, span),
        11 => group_of::<11, 12>(tape, *fir, span),
        12 => group_of::<12, 12>(tape, *fir, span),
        13 => group_of::<13, 13>(tape, *fir, span),
        14 => group_of::<14, 14>(tape, *fir, span),
        _ => group_of::<15, 16>(tape, *fir, span),
    }
}

// A group, and some more: what is more does not wait for the sums of a group. An arm for each number, as above, since a const argument is a constant.
fn more_outputs(tape: &[f32], fir: &Folded<'_>, span: &mut [f32])
    requires { (fir.now.long + length span.old < length tape.now) × (16 ≤ length span.old) × (length span.old ≤ 24) }
    ensures { span.new ≡ H.values_of fir.now tape.now (length span.old) }
{
    match span.len() {
        16 => group_of::<16, 16>(tape, *fir, span),
        17 => group_of::<17, 17>(tape, *fir, span),
        18 => group_of::<18, 18>(tape, *fir, span),
        19 => group_of::<19, 20>(tape, *fir, span),
        20 => group_of::<20, 20>(tape, *fir, span),
        21 => group_of::<21, 21>(tape, *fir, span),
        22 => group_of::<22, 22>(tape, *fir, span),
        23 => group_of::<23, 24>(tape, *fir, span),
        _ => group_of::<24, 24>(tape, *fir, span),
    }
}

// As many as are made at once. Two calls, so that neither saves what the other takes.
#[inline(always)]
pub(crate) fn outputs_once(tape: &[f32], fir: &Folded<'_>, span: &mut [f32])
    requires { (fir.now.long + length span.old < length tape.now) × (length span.old ≤ 24) }
    ensures { span.new ≡ H.values_of fir.now tape.now (length span.old) }
{
    if span.len() < LANES {
        return few_outputs(tape, fir, span);
    }
    more_outputs(tape, fir, span);
}
