// Blocks no shorter than a short delay, with a copy of the code for each length of a filter. Outputs whose windows begin in the delay are made on a tape, all others along the samples: the
// compiler knows the window, and makes several at once.
ghost use Rattle.std.specs.Prelude.{◌≡◌, true, ◌++◌, ◌+◌, ◌≤◌, length, take, drop};
ghost use Rattle.theory.specs.Sections.{state, outs};
ghost use Rattle.linear_phase.specs.inner.Handed as H;
ghost use Rattle.linear_phase.specs.LinearPhase as P;
ghost use Rattle.linear_phase.specs.inner.Lanes as A;

use crate::few::{group_of, singles};
use crate::kinds::{Folded, Kind};
use crate::lanes::{LANES, group_at, put_all};
use crate::limits::{LINEAR_PHASE_DELAYS, MOST_LINEAR_PHASE_TAPS};
use crate::moves::{copy_taken, taken};

// Places for the longest of these delays and as many samples.
const TAPE: usize = 20;

// Whether there are two to five taps, and the samples fill the delay.
pub(crate) fn is_straight(m: usize, long: usize, n: usize) -> bool
    ensures { result ≡ true → (2 ≤ m) × (m ≤ 5) × (long ≤ n) }
{
    (2..=5).contains(&m) && long <= n
}

// Outputs at the windows from the front of the samples on: whole groups from the end on, and one by one what is left in front. So no load stands a little behind a store that
// was just made: where samples and span have the same place in their pages, the processor takes the one for the other, and waits.
#[inline(always)]
fn groups_back(src: &[f32], fir: Folded<'_>, span: &mut [f32])
    requires { fir.long + length span.old ≤ length src.now }
    ensures { span.new ≡ H.values_of fir.entry src.now (length span.old) }
{
    // By hand: it goes by groups from the end on, and `end` tells what is left in front. Not `outputs_back`, which looks for each group whether its windows are on a tape.
    let mut end = span.len();
    while LANES <= end {
        let at = end - LANES;
        let y = group_at(src, at, fir);
        put_all(&mut span[at..end], y);
        end = at;
    }
    singles(src, fir, &mut span[..end]);
}

// The taps go to an array of this function: no store to the span can be one to it.
fn straight<const M: usize, const LONG: usize, const ODD: bool, const MINUS: bool>(
    taps: &[f32],
    delay: &mut [f32; LINEAR_PHASE_DELAYS],
    src: &[f32],
    span: &mut [f32],
)
    requires known { (M ≡ length taps.now) × (LONG ≡ P.reach ODD (length taps.now)) × (1 ≤ M) × (M ≤ 5) × (LONG ≤ 10) }
    requires lent { (length span.old ≡ length src.now) × (LONG ≤ length src.now) }
    ensures delay { delay.new ≡ H.left_of (A.linear_phase ODD MINUS taps.now) (P.reach ODD (length taps.now)) delay.old src.now }
    ensures span { span.new ≡ H.made_of (A.linear_phase ODD MINUS taps.now) (P.reach ODD (length taps.now)) delay.old src.now }
{
    let own = taken::<M>(taps);
    let kind = Kind {
        odd: ODD,
        antisymmetric: MINUS,
    };
    let fir = Folded::of(&own, kind);
    let mut tape = [0.0f32; TAPE];
    copy_taken::<LONG>(&mut tape[..LONG], delay);
    copy_taken::<LONG>(&mut tape[LONG..LONG + LONG], src);
    let newest = src.len() - LONG;
    copy_taken::<LONG>(&mut delay[..LONG], &src[newest..]);
    groups_back(src, fir, &mut span[LONG..]);
    group_of::<LONG, LONG>(&tape, fir, &mut span[..LONG]);
}

// A copy for each length, and for each kind; a delay's length is named beside M, since a const argument is never computed. Handed the same as `filter_brief`.
#[tactic(auto, unfolding(crate::specs::LinearPhase::reach))]
#[inline(never)]
pub(crate) fn filter_straight(
    m: usize,
    kind: Kind,
    taps: &[f32; MOST_LINEAR_PHASE_TAPS],
    delay: &mut [f32; LINEAR_PHASE_DELAYS],
    src: &[f32],
    span: &mut [f32],
)
    requires few_taps { (2 ≤ m) × (m ≤ 5) }
    requires lent { (length span.old ≡ length src.now) × (H.kind_long m kind ≤ length src.now) }
    ensures delay { delay.new ≡ H.left_of (H.kind_by m kind taps.now) (H.kind_long m kind) delay.old src.now }
    ensures span { span.new ≡ H.made_of (H.kind_by m kind taps.now) (H.kind_long m kind) delay.old src.now }
{
    let taps = &taps[..m];
    match (kind.odd, kind.antisymmetric, m) {
        (false, false, 2) => straight::<2, 3, false, false>(taps, delay, src, span),
        (false, false, 3) => straight::<3, 5, false, false>(taps, delay, src, span),
        (false, false, 4) => straight::<4, 7, false, false>(taps, delay, src, span),
        (false, false, _) => straight::<5, 9, false, false>(taps, delay, src, span),
        (false, true, 2) => straight::<2, 3, false, true>(taps, delay, src, span),
        (false, true, 3) => straight::<3, 5, false, true>(taps, delay, src, span),
        (false, true, 4) => straight::<4, 7, false, true>(taps, delay, src, span),
        (false, true, _) => straight::<5, 9, false, true>(taps, delay, src, span),
        (true, false, 2) => straight::<2, 4, true, false>(taps, delay, src, span),
        (true, false, 3) => straight::<3, 6, true, false>(taps, delay, src, span),
        (true, false, 4) => straight::<4, 8, true, false>(taps, delay, src, span),
        (true, false, _) => straight::<5, 10, true, false>(taps, delay, src, span),
        (true, true, 2) => straight::<2, 4, true, true>(taps, delay, src, span),
        (true, true, 3) => straight::<3, 6, true, true>(taps, delay, src, span),
        (true, true, 4) => straight::<4, 8, true, true>(taps, delay, src, span),
        (true, true, _) => straight::<5, 10, true, true>(taps, delay, src, span),
    }
}
