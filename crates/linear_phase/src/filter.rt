// A block of samples through a delay of the last ones, the oldest first.
ghost use Rattle.std.specs.Prelude.{◌≡◌, true, false, ◌++◌, ◌+◌, ◌-◌, ◌*◌, ◌≤◌, ◌<◌, min, length, take, drop, unwrap_or, option_copied};
ghost use Rattle.theory.specs.Sections.{state, outs};
ghost use Rattle.linear_phase.specs.inner.Handed as H;
ghost use Rattle.linear_phase.specs.inner.Lanes as A;

use crate::few::outputs_once;
use crate::kinds::Folded;
use crate::lanes::{LANES, MORE, outputs_back, put_all, samples_of};
use crate::limits::LINEAR_PHASE_DELAYS;
use crate::moves::{copy_few, move_past, taken};
use float::span::{lay, put_at_end};

// Places for the longest delay, and for the samples that the last group of windows beginning in it reaches.
const TAPE: usize = 2 * LINEAR_PHASE_DELAYS + LANES;

// The last samples are the next delay; where there are fewer than it has places, they stand on the tape behind it.
fn last_in(delay: &mut [f32], tape: &[f32], samples: &[f32])
    requires room { 2 * length delay.old ≤ length tape.now }
    requires on_tape { A.InRow tape.now delay.old samples.now }
    ensures { delay.new ≡ drop (length samples.now) (delay.old ++ samples.now) }
{
    let n = samples.len();
    let long = delay.len();
    if n < long {
        let past = n + long;
        return put_at_end(delay, &tape[n..past]);
    }
    let newest = n - long;
    put_at_end(delay, &samples[newest..]);
}

// The lent samples, or else those of the span itself, go through the filter, and their outputs into the span.
#[inline(never)]
pub(crate) fn filter(delay: &mut [f32], fir: &Folded<'_>, src: Option<&[f32]>, span: &mut [f32])
    requires whole { length delay.old ≡ fir.now.long }
    requires many { (16 < fir.now.long) × (16 ≤ length span.old) }
    requires src_len { length (unwrap_or (option_copied src) span.old) ≡ length span.old }
    ensures delay { let samples = unwrap_or (option_copied src.entry) span.old in
        delay.new ≡ state (H.by fir.now) delay.old samples }
    ensures span { let samples = unwrap_or (option_copied src.entry) span.old in
        span.new ≡ outs (H.by fir.now) delay.old samples }
{
    let head = span.len().min(fir.long + LANES);
    let samples = samples_of(src, span);
    let mut tape = [0.0f32; TAPE];
    lay(&mut tape, delay, &samples[..head]);
    last_in(delay, &tape, samples);
    outputs_back(&tape, src, fir, span);
}

// Whether the delay is no longer than a group.
pub(crate) fn is_short(long: usize) -> bool
    ensures { (result ≡ true → long ≤ 16) × (result ≡ false → 16 < long) }
{
    long <= LANES
}

// The places for such a delay and two groups of samples.
const SHORT_TAPE: usize = 3 * LANES;

// They are put there in whole groups, each over what is too much of the one before; the second group ends with the samples where these are fewer than two.
fn lay_groups(tape: &mut [f32], delay: &[f32], long: usize, samples: &[f32])
    requires { (long ≤ 16) × (16 ≤ length delay.now) × (16 ≤ length samples.now) × (length tape.old ≡ 48) }
    ensures { let n = min (length samples.now) 32 in
        take (long + n) tape.new ≡ take long delay.now ++ take n samples.now }
{
    let early = taken(delay);
    put_all(tape, early);
    let front = taken(samples);
    put_all(&mut tape[long..], front);
    let second = (samples.len() - LANES).min(LANES);
    let next = taken(&samples[second..]);
    let at = long + second;
    put_all(&mut tape[at..], next);
}

// `filter` for a delay no longer than a group, in front of the lent places: it and the samples go to the tape in whole groups, with no call that copies so many as it is told.
#[inline(never)]
pub(crate) fn filter_short(
    delay: &mut [f32; LINEAR_PHASE_DELAYS],
    fir: &Folded<'_>,
    src: Option<&[f32]>,
    span: &mut [f32],
)
    requires long_bound { fir.now.long ≤ 16 }
    requires src_len { (length (unwrap_or (option_copied src) span.old) ≡ length span.old) × (16 ≤ length span.old) }
    ensures delay { let samples = unwrap_or (option_copied src.entry) span.old in
        delay.new ≡ H.left_of (H.by fir.now) fir.now.long delay.old samples }
    ensures span { let samples = unwrap_or (option_copied src.entry) span.old in
        span.new ≡ H.made_of (H.by fir.now) fir.now.long delay.old samples }
{
    let long = fir.long;
    let line = samples_of(src, span);
    let mut tape = [0.0f32; SHORT_TAPE];
    lay_groups(&mut tape, delay, long, line);
    let newest = line.len() - long;
    copy_few(&mut delay[..long], &line[newest..]);
    outputs_back(&tape, src, fir, span);
}

// Places of a tape for fewer samples than a group behind a delay of one group, of two, and of the longest, and for the most samples that are made into outputs at once behind that.
const NARROW: usize = 2 * LANES;

const WIDER: usize = 3 * LANES;

const WIDE: usize = 4 * LANES;

// Whole fours.
const WIDEST: usize = LINEAR_PHASE_DELAYS + MORE + 2;

// The first places of the delay, in whole groups: what the first of them has behind these is put over.
#[inline(always)]
fn lay_delay(tape: &mut [f32], delay: &[f32; LINEAR_PHASE_DELAYS], long: usize)
    requires { (long + 16 ≤ length tape.old) × (long ≤ 46) }
    ensures { (take long tape.new ≡ take long delay.now) × (length tape.new ≡ length tape.old) }
{
    let early = taken(delay);
    put_all(tape, early);
    if long <= LANES {
        return;
    }
    let middle = taken(&delay[LANES..]);
    put_all(&mut tape[LANES..], middle);
    if long <= 2 * LANES {
        return;
    }
    let last = long - LANES;
    let late = taken(&delay[last..]);
    put_all(&mut tape[last..], late);
}

// `filter` for a few samples and a delay in front of the lent places, along a tape of T places: the delay goes there in whole groups, and all outputs are one group.
#[inline(always)]
fn filter_few<const T: usize>(
    delay: &mut [f32; LINEAR_PHASE_DELAYS],
    fir: &Folded<'_>,
    src: Option<&[f32]>,
    span: &mut [f32],
)
    requires places { (fir.now.long + 16 ≤ T) × (fir.now.long + length span.old < T) × (T ≤ 72) }
    requires src_len { (length (unwrap_or (option_copied src) span.old) ≡ length span.old) × (length span.old ≤ 24) }
    ensures delay { let samples = unwrap_or (option_copied src.entry) span.old in
        delay.new ≡ H.left_of (H.by fir.now) fir.now.long delay.old samples }
    ensures span { let samples = unwrap_or (option_copied src.entry) span.old in
        span.new ≡ H.made_of (H.by fir.now) fir.now.long delay.old samples }
{
    let long = fir.long;
    let past = long + span.len();
    let lent = samples_of(src, span);
    let mut places = [0.0f32; T];
    let tape = &mut places[..];
    lay_delay(tape, delay, long);
    copy_few(&mut tape[long..past], lent);
    move_past(&mut delay[..long], lent);
    outputs_once(tape, fir, span);
}

// The same of lent samples, by a tape for the delay. A call of its own, as the next: so their tapes are no part of the stack that the other roads take. The filter is lent, which is one word: handed on, it is copied for each call.
#[inline(never)]
pub(crate) fn few_of(
    delay: &mut [f32; LINEAR_PHASE_DELAYS],
    fir: &Folded<'_>,
    src: &[f32],
    span: &mut [f32],
)
    requires { (length span.old ≡ length src.now) × (length span.old ≤ 24) }
    ensures delay { delay.new ≡ H.left_of (H.by fir.now) fir.now.long delay.old src.now }
    ensures span { span.new ≡ H.made_of (H.by fir.now) fir.now.long delay.old src.now }
{
    if LANES <= span.len() {
        return filter_few::<WIDEST>(delay, fir, Some(src), span);
    }
    if is_short(fir.long) {
        return filter_few::<NARROW>(delay, fir, Some(src), span);
    }
    if fir.long <= 2 * LANES {
        return filter_few::<WIDER>(delay, fir, Some(src), span);
    }
    filter_few::<WIDE>(delay, fir, Some(src), span);
}

// And of those of the span.
#[inline(never)]
pub(crate) fn few_inplace(
    delay: &mut [f32; LINEAR_PHASE_DELAYS],
    fir: &Folded<'_>,
    span: &mut [f32],
)
    requires { length span.old ≤ 24 }
    ensures delay { delay.new ≡ H.left_of (H.by fir.now) fir.now.long delay.old span.old }
    ensures span { span.new ≡ H.made_of (H.by fir.now) fir.now.long delay.old span.old }
{
    if LANES <= span.len() {
        return filter_few::<WIDEST>(delay, fir, None, span);
    }
    if is_short(fir.long) {
        return filter_few::<NARROW>(delay, fir, None, span);
    }
    if fir.long <= 2 * LANES {
        return filter_few::<WIDER>(delay, fir, None, span);
    }
    filter_few::<WIDE>(delay, fir, None, span);
}
