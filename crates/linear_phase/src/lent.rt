// Samples through a filter inside its limits, whose taps and delay are lent: the roads that they take, by how many they are.
ghost use Rattle.std.specs.Prelude.{◌≡◌, ◌≤◌, length, take, unwrap_or, option_copied};
ghost use Rattle.theory.specs.Sections.{state, outs};
ghost use Rattle.linear_phase.specs.inner.Handed as H;
ghost use Rattle.linear_phase.specs.LinearPhase.{reach};
ghost use Rattle.linear_phase.specs.LinearPhaseFir as P;

use crate::brief::{filter_brief, filter_single, is_brief};
use crate::filter::{few_inplace, few_of, filter, filter_short, is_short};
use crate::kinds::{Folded, Half};
use crate::lanes::MORE;
use crate::limits::{LINEAR_PHASE_DELAYS, MOST_LINEAR_PHASE_TAPS};
use crate::one::filter_one;
use crate::straight::{filter_straight, is_straight};

// The most taps of a filter that has roads of its own.
const FEW_TAPS: usize = 5;

impl Half {
    // The filter of the taps that lie in front of those lent.
    #[inline(always)]
    fn folded<'a>(self, taps: &'a [f32; MOST_LINEAR_PHASE_TAPS]) -> Folded<'a>
        ensures { (result.taps.now ≡ take self.m taps.now) × (result.long ≡ reach self.kind.odd self.m) × (result.kind ≡ self.kind) }
    {
        Folded::of(&taps[..self.m], self.kind)
    }

    // One sample, through the taps and the delay that lie in front of those lent. A call of its own would take a third of the time of a short filter's sample.
    #[inline(always)]
    pub(crate) fn process(
        self,
        taps: &[f32; MOST_LINEAR_PHASE_TAPS],
        delay: &mut [f32; LINEAR_PHASE_DELAYS],
        x: f32,
    ) -> f32
        ensures delay { let before = H.lent_state self taps.now delay.old in
            let after = H.lent_state self taps.now delay.new in
            after ≡ P.phase_next before x }
        ensures value { let before = H.lent_state self taps.now delay.old in
            result ≡ P.phase_out before x }
    {
        let fir = self.folded(taps);
        filter_one(&mut delay[..fir.long], fir, x)
    }

    // The samples of the span, likewise, their outputs in their places: one alone in the lent delay, more along a tape.
    pub(crate) fn inplace(
        self,
        taps: &[f32; MOST_LINEAR_PHASE_TAPS],
        delay: &mut [f32; LINEAR_PHASE_DELAYS],
        span: &mut [f32],
    )
        ensures delay { let before = H.lent_state self taps.now delay.old in
            let after = H.lent_state self taps.now delay.new in
            after ≡ state P.phase_fir before span.old }
        ensures span { let before = H.lent_state self taps.now delay.old in
            span.new ≡ outs P.phase_fir before span.old }
    {
        if span.len() == 1 {
            span[0] = self.process(taps, delay, span[0]);
            return;
        }
        if span.len() <= MORE {
            let fir = self.folded(taps);
            return few_inplace(delay, &fir, span);
        }
        self.along(taps, delay, None, span);
    }

    // The samples of src, likewise, an output of each in the span: one in the lent delay; along the samples, where they fill a short delay; a few through a short
    // one in registers; two in the lent delay; others along a tape. Each road is the fastest of its blocks (docs/SPEED.md).
    pub(crate) fn block(
        self,
        taps: &[f32; MOST_LINEAR_PHASE_TAPS],
        delay: &mut [f32; LINEAR_PHASE_DELAYS],
        src: &[f32],
        span: &mut [f32],
    )
        requires { length span.old ≡ length src.now }
        ensures delay { let before = H.lent_state self taps.now delay.old in
            let after = H.lent_state self taps.now delay.new in
            after ≡ state P.phase_fir before src.now }
        ensures span { let before = H.lent_state self taps.now delay.old in
            span.new ≡ outs P.phase_fir before src.now }
    {
        if src.len() == 1 {
            span[0] = self.process(taps, delay, src[0]);
            return;
        }
        if self.m <= FEW_TAPS {
            if self.m == 1 {
                return filter_single(self.kind, taps, delay, src, span);
            }
            let long = self.kind.reach(self.m);
            if is_straight(self.m, long, src.len()) {
                return filter_straight(self.m, self.kind, taps, delay, src, span);
            }
            if is_brief(self.m, src.len()) {
                return filter_brief(self.m, self.kind, taps, delay, src, span);
            }
        }
        if src.len() == 2 {
            let y = self.process(taps, delay, src[0]);
            let z = self.process(taps, delay, src[1]);
            span[0] = y;
            span[1] = z;
            return;
        }
        if src.len() <= MORE {
            return self.few(taps, delay, src, span);
        }
        self.along(taps, delay, Some(src), span);
    }

    // A few samples of src, likewise, in one group. Inlined, and yet apart: so the places of its filter are cleared on this road alone, and not for each block.
    #[inline(always)]
    fn few(
        self,
        taps: &[f32; MOST_LINEAR_PHASE_TAPS],
        delay: &mut [f32; LINEAR_PHASE_DELAYS],
        src: &[f32],
        span: &mut [f32],
    )
        requires { (length span.old ≡ length src.now) × (length span.old ≤ 24) }
        ensures delay { let before = H.lent_state self taps.now delay.old in
            let after = H.lent_state self taps.now delay.new in
            after ≡ state P.phase_fir before src.now }
        ensures span { let before = H.lent_state self taps.now delay.old in
            span.new ≡ outs P.phase_fir before src.now }
    {
        let fir = self.folded(taps);
        few_of(delay, &fir, src, span);
    }

    // A group of samples and more, the lent ones or else those of the span itself, likewise, along a tape. Two calls, and by itself the compiler inlines neither.
    #[inline(always)]
    fn along(
        self,
        taps: &[f32; MOST_LINEAR_PHASE_TAPS],
        delay: &mut [f32; LINEAR_PHASE_DELAYS],
        src: Option<&[f32]>,
        span: &mut [f32],
    )
        requires { (length (unwrap_or (option_copied src) span.old) ≡ length span.old) × (16 ≤ length span.old) }
        ensures delay { let before = H.lent_state self taps.now delay.old in
            let after = H.lent_state self taps.now delay.new in
            after ≡ state P.phase_fir before (unwrap_or (option_copied src.entry) span.old) }
        ensures span { let before = H.lent_state self taps.now delay.old in
            span.new ≡ outs P.phase_fir before (unwrap_or (option_copied src.entry) span.old) }
    {
        let fir = self.folded(taps);
        if is_short(fir.long) {
            return filter_short(delay, &fir, src, span);
        }
        filter(&mut delay[..fir.long], &fir, src, span);
    }
}
