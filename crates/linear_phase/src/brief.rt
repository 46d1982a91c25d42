// A few samples through a short delay, which stays in registers: there is a copy of the loop for each length of a short filter, in which the compiler knows every place of the window.
ghost use Rattle.std.specs.Prelude.{◌≡◌, true, [], ◌∷◌, ◌++◌, ◌≤◌, length, take, drop};
ghost use Rattle.theory.specs.Sections.{state, outs};
ghost use Rattle.half_band.specs.Windows.{slid};
ghost use Rattle.linear_phase.specs.inner.Handed as H;
ghost use Rattle.linear_phase.specs.LinearPhase as P;
ghost use Rattle.linear_phase.specs.inner.Lanes as A;

use crate::kinds::{Folded, Kind};
use crate::limits::{LINEAR_PHASE_DELAYS, MOST_LINEAR_PHASE_TAPS};
use crate::one::value_with;

// The longest delay of five taps.
const SHORT_DELAY: usize = 10;

// Whether there are at most three taps, or five and at most four samples. More taps are told by one comparison.
pub(crate) fn is_brief(m: usize, n: usize) -> bool
    ensures { result ≡ true → m ≤ 5 }
{
    if 5 < m {
        return false;
    }
    m <= 3 || n <= 4
}

// The delay moves down by one place, and x stands at its end. It goes from the end on: the other way would be a copy in memory to the compiler. By the number: with
// `iter_mut` turned round a proof sees an iterator in place of the places.
fn push(delay: &mut [f32], x: f32)
    requires { 1 ≤ length delay.old }
    ensures { delay.new ≡ slid delay.old (x ∷ []) }
{
    let mut later = x;
    for i in (0..delay.len()).rev() {
        let old = delay[i];
        delay[i] = later;
        later = old;
    }
}

// Sample by sample, an output of each into the span, whose number reads the samples (as in `add_pairs`). It is stored last: before the delay moves, with one tap it costs 7.0 instructions a sample of a long block for 2.5.
#[inline(always)]
fn each(delay: &mut [f32], fir: Folded<'_>, src: &[f32], span: &mut [f32])
    requires { (length delay.old ≡ fir.long) × (length span.old ≡ length src.now) }
    ensures delay { delay.new ≡ state (H.by fir.entry) delay.old src.now }
    ensures span { span.new ≡ outs (H.by fir.entry) delay.old src.now }
{
    for (i, place) in span.iter_mut().enumerate() {
        let x = src[i];
        let y = value_with(delay, fir, x);
        push(delay, x);
        *place = y;
    }
}

// The same through M taps and the delay in front of the lent one, a copy of the loop for each M and each kind. The delay moves in an array of this function: no
// store to the span can be one to it.
fn held<const M: usize, const ODD: bool, const MINUS: bool>(
    taps: &[f32],
    delay: &mut [f32; LINEAR_PHASE_DELAYS],
    src: &[f32],
    span: &mut [f32],
)
    requires { (M ≡ length taps.now) × (1 ≤ M) × (M ≤ 5) × (length span.old ≡ length src.now) }
    ensures delay { delay.new ≡ H.left_of (A.linear_phase ODD MINUS taps.now) (P.reach ODD (length taps.now)) delay.old src.now }
    ensures span { span.new ≡ H.made_of (A.linear_phase ODD MINUS taps.now) (P.reach ODD (length taps.now)) delay.old src.now }
{
    let kind = Kind {
        odd: ODD,
        antisymmetric: MINUS,
    };
    let fir = Folded::of(&taps[..M], kind);
    let long = fir.long;
    let mut window = [0.0f32; SHORT_DELAY];
    window[..long].copy_from_slice(&delay[..long]);
    each(&mut window[..long], fir, src, span);
    delay[..long].copy_from_slice(&window[..long]);
}

// Through one tap. The delay comes and goes place by place: as a slice it is one word of two samples, which the compiler would take apart for each sample.
#[inline(always)]
fn held_one<const ODD: bool, const MINUS: bool>(
    taps: &[f32],
    delay: &mut [f32; LINEAR_PHASE_DELAYS],
    src: &[f32],
    span: &mut [f32],
)
    requires { (length taps.now ≡ 1) × (length span.old ≡ length src.now) }
    ensures delay { delay.new ≡ H.left_of (A.linear_phase ODD MINUS taps.now) (P.reach ODD (length taps.now)) delay.old src.now }
    ensures span { span.new ≡ H.made_of (A.linear_phase ODD MINUS taps.now) (P.reach ODD (length taps.now)) delay.old src.now }
{
    let kind = Kind {
        odd: ODD,
        antisymmetric: MINUS,
    };
    let fir = Folded::of(taps, kind);
    let mut window = [delay[0], delay[1]];
    each(&mut window[..fir.long], fir, src, span);
    delay[0] = window[0];
    delay[1] = window[1];
}

// A copy for each kind. Inlined where it is called: a call takes a fifth of the time of a block of four.
#[inline(always)]
pub(crate) fn filter_single(
    kind: Kind,
    taps: &[f32; MOST_LINEAR_PHASE_TAPS],
    delay: &mut [f32; LINEAR_PHASE_DELAYS],
    src: &[f32],
    span: &mut [f32],
)
    requires { length span.old ≡ length src.now }
    ensures delay { delay.new ≡ H.left_of (H.kind_by 1 kind taps.now) (H.kind_long 1 kind) delay.old src.now }
    ensures span { span.new ≡ H.made_of (H.kind_by 1 kind taps.now) (H.kind_long 1 kind) delay.old src.now }
{
    let taps = &taps[..1];
    match (kind.odd, kind.antisymmetric) {
        (false, false) => held_one::<false, false>(taps, delay, src, span),
        (false, true) => held_one::<false, true>(taps, delay, src, span),
        (true, false) => held_one::<true, false>(taps, delay, src, span),
        (true, true) => held_one::<true, true>(taps, delay, src, span),
    }
}

// Of five taps. A call of its own: what its window takes of the registers would be saved at every call of the others.
#[inline(never)]
fn held_five<const ODD: bool, const MINUS: bool>(
    taps: &[f32],
    delay: &mut [f32; LINEAR_PHASE_DELAYS],
    src: &[f32],
    span: &mut [f32],
)
    requires { (length taps.now ≡ 5) × (length span.old ≡ length src.now) }
    ensures delay { delay.new ≡ H.left_of (A.linear_phase ODD MINUS taps.now) (P.reach ODD (length taps.now)) delay.old src.now }
    ensures span { span.new ≡ H.made_of (A.linear_phase ODD MINUS taps.now) (P.reach ODD (length taps.now)) delay.old src.now }
{
    held::<5, ODD, MINUS>(taps, delay, src, span);
}

// A copy for each number of taps.
fn filter_kind<const ODD: bool, const MINUS: bool>(
    taps: &[f32],
    delay: &mut [f32; LINEAR_PHASE_DELAYS],
    src: &[f32],
    span: &mut [f32],
)
    requires { (2 ≤ length taps.now) × (length taps.now ≤ 5) × (length span.old ≡ length src.now) }
    ensures delay { delay.new ≡ H.left_of (A.linear_phase ODD MINUS taps.now) (P.reach ODD (length taps.now)) delay.old src.now }
    ensures span { span.new ≡ H.made_of (A.linear_phase ODD MINUS taps.now) (P.reach ODD (length taps.now)) delay.old src.now }
{
    match taps.len() {
        2 => held::<2, ODD, MINUS>(taps, delay, src, span),
        3 => held::<3, ODD, MINUS>(taps, delay, src, span),
        4 => held::<4, ODD, MINUS>(taps, delay, src, span),
        _ => held_five::<ODD, MINUS>(taps, delay, src, span),
    }
}

// A copy for each kind. Handed the number of taps and the kind, which go through registers: a `Half` and a `Folded` go through memory.
#[inline(never)]
pub(crate) fn filter_brief(
    m: usize,
    kind: Kind,
    taps: &[f32; MOST_LINEAR_PHASE_TAPS],
    delay: &mut [f32; LINEAR_PHASE_DELAYS],
    src: &[f32],
    span: &mut [f32],
)
    requires { (2 ≤ m) × (m ≤ 5) × (length span.old ≡ length src.now) }
    ensures delay { delay.new ≡ H.left_of (H.kind_by m kind taps.now) (H.kind_long m kind) delay.old src.now }
    ensures span { span.new ≡ H.made_of (H.kind_by m kind taps.now) (H.kind_long m kind) delay.old src.now }
{
    let taps = &taps[..m];
    match (kind.odd, kind.antisymmetric) {
        (false, false) => filter_kind::<false, false>(taps, delay, src, span),
        (false, true) => filter_kind::<false, true>(taps, delay, src, span),
        (true, false) => filter_kind::<true, false>(taps, delay, src, span),
        (true, true) => filter_kind::<true, true>(taps, delay, src, span),
    }
}
