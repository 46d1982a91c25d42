// Samples copied, and a delay moved down, in groups of which the compiler knows the size: so they go through registers, without a call.
ghost use Rattle.std.specs.Prelude.{◌≡◌, ◌++◌, ◌+◌, ◌-◌, ◌≤◌, ◌<◌, length, take, drop};

use crate::lanes::{LANES, put_all, put_group};

// The first of a line.
pub(crate) fn taken<const N: usize>(line: &[f32]) -> [f32; N]
    requires { N ≤ length line.now }
    ensures { result ≡ take N line.now }
{
    let mut y = [0.0f32; N];
    y.copy_from_slice(&line[..N]);
    y
}

// N samples into a span of as many places.
pub(crate) fn copy_taken<const N: usize>(span: &mut [f32], src: &[f32])
    requires { (N ≤ length src.now) × (length span.old ≡ N) }
    ensures { span.new ≡ take N src.now }
{
    let y = taken::<N>(src);
    put_group(span, &y);
}

// One group in front of a span, and one at its end. Where they meet, the second goes over the first.
fn put_both(span: &mut [f32], y: &[f32], z: &[f32])
    requires { (length y.now ≡ length z.now) × (length z.now ≤ length span.old) × (length span.old ≤ length y.now + length z.now) }
    ensures { span.new ≡ take (length span.old - length z.now) y.now ++ z.now }
{
    let last = span.len() - z.len();
    put_group(span, y);
    put_group(&mut span[last..], z);
}

// The samples into a span of as many places, by their first N and their last N, which are all of them. The last are read when the first are written: so neither waits in memory.
#[inline(always)]
fn copy_ends<const N: usize>(span: &mut [f32], src: &[f32])
    requires { (length src.now ≡ length span.old) × (N ≤ length span.old) × (length span.old ≤ N + N) }
    ensures { span.new ≡ src.now }
{
    let last = span.len() - N;
    let y = taken::<N>(src);
    put_group(span, &y);
    let z = taken::<N>(&src[last..]);
    put_group(&mut span[last..], &z);
}

// At most two groups of samples into a span of as many places. By `if`s, the largest first: of a `match` the compiler compares the smallest first, which costs a block of four a tenth.
#[inline(always)]
pub(crate) fn copy_few(span: &mut [f32], src: &[f32])
    requires { (length src.now ≡ length span.old) × (length span.old ≤ 32) }
    ensures { span.new ≡ src.now }
{
    let n = span.len();
    if LANES <= n {
        return copy_ends::<LANES>(span, src);
    }
    if 8 <= n {
        return copy_ends::<8>(span, src);
    }
    if 4 <= n {
        return copy_ends::<4>(span, src);
    }
    if 2 <= n {
        return copy_ends::<2>(span, src);
    }
    if n == 1 {
        copy_ends::<1>(span, src);
    }
}

// The places from `to` on, as many as a group, get what stands n places on; all of it is read before any is written.
#[inline(always)]
fn move_group(delay: &mut [f32], to: usize, n: usize)
    requires { to + n + 16 ≤ length delay.old }
    ensures { delay.new ≡ take to delay.old ++ (take 16 (drop (to + n) delay.old) ++ drop (to + 16) delay.old) }
{
    let from = to + n;
    let y = taken::<LANES>(&delay[from..]);
    put_all(&mut delay[to..], y);
}

// The places of whole groups move down by n; where these end. The loop counts by hand: it goes by groups, and the answer is the count that it ends with.
#[inline(always)]
fn move_groups(delay: &mut [f32], n: usize) -> usize
    requires { n ≤ length delay.old }
    ensures { (result + n ≤ length delay.old) × (length delay.old < result + n + 16) × (delay.new ≡ take result (drop n delay.old) ++ drop result delay.old) }
{
    let mut i = 0;
    while i + n + LANES <= delay.len() {
        move_group(delay, i, n);
        i += LANES;
    }
    i
}

// The places behind the first n move down by n, by their first N and their last N, which are all of them; both are read before either is written.
#[inline(always)]
fn move_ends<const N: usize>(rest: &mut [f32], n: usize)
    requires { (N + n ≤ length rest.old) × (length rest.old ≤ N + N + n) }
    ensures { rest.new ≡ drop n rest.old ++ drop (length rest.old - n) rest.old }
{
    let last = rest.len() - N;
    let kept = rest.len() - n;
    let y = taken::<N>(&rest[n..]);
    let z = taken::<N>(&rest[last..]);
    put_both(&mut rest[..kept], &y, &z);
}

// The same of fewer than a group.
#[inline(always)]
fn move_rest(rest: &mut [f32], n: usize)
    requires { (n ≤ length rest.old) × (length rest.old < n + 16) }
    ensures { rest.new ≡ drop n rest.old ++ drop (length rest.old - n) rest.old }
{
    let kept = rest.len() - n;
    if 8 <= kept {
        return move_ends::<8>(rest, n);
    }
    if 4 <= kept {
        return move_ends::<4>(rest, n);
    }
    if 2 <= kept {
        return move_ends::<2>(rest, n);
    }
    if kept == 1 {
        move_ends::<1>(rest, n);
    }
}

// All places move down by n; the last n stay too.
#[inline(always)]
pub(crate) fn move_down(delay: &mut [f32], n: usize)
    requires { n ≤ length delay.old }
    ensures { delay.new ≡ drop n delay.old ++ drop (length delay.old - n) delay.old }
{
    let first = move_groups(delay, n);
    move_rest(&mut delay[first..], n);
}

// The last of the delay and of at most two groups of samples behind it are the next delay.
#[inline(always)]
pub(crate) fn move_past(delay: &mut [f32], samples: &[f32])
    requires { (1 ≤ length delay.old) × (length samples.now ≤ 32) }
    ensures { delay.new ≡ drop (length samples.now) (delay.old ++ samples.now) }
{
    let n = samples.len();
    let long = delay.len();
    if long <= n {
        let newest = n - long;
        return copy_few(delay, &samples[newest..]);
    }
    let kept = long - n;
    move_down(delay, n);
    copy_few(&mut delay[kept..], samples);
}
