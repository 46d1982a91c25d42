// The first halving of a chunk's samples: it reads them where they stand, so that the tape is for half as many values.
ghost use Rattle.std.specs.Prelude.{◌≡◌, map, ◌*◌, ◌≤◌, length};
ghost use Rattle.std.specs.Int.{w32};
ghost use Rattle.theory.specs.Wrap.{wrap};
ghost use Rattle.nonrecursive.specs.inner.Tape.{pairs};

use crate::nonrecursive_decimator::sum_neighbours;

// Pairs of samples each hand one on, to a place of dst. By the pair's number: in a zip with `iter_mut` a proof sees an iterator in place of dst.
fn first_on(stages: usize, neighbours: &mut [i32], src: &[i32], dst: &mut [i32])
    requires { length src.now ≡ length dst.old * 2 }
    ensures { let halved = pairs stages neighbours.old (map (wrap w32) src.now) in
        (neighbours.new ≡ halved.state) × (dst.new ≡ halved.vals) }
{
    for i in 0..dst.len() {
        let first = 2 * i;
        sum_neighbours(stages, neighbours, src[first]);
        let second = sum_neighbours(stages, neighbours, src[first + 1]);
        dst[i] = second;
    }
}

// The same of a number of stages that the compiler knows, as `halve_of`.
fn first_of<const N: usize>(neighbours: &mut [i32], src: &[i32], dst: &mut [i32])
    requires { (N ≤ length neighbours.old) × (length src.now ≡ length dst.old * 2) }
    ensures { let halved = pairs N neighbours.old (map (wrap w32) src.now) in
        (neighbours.new ≡ halved.state) × (dst.new ≡ halved.vals) }
{
    let mut held = [0; N];
    held.copy_from_slice(&neighbours[..N]);
    first_on(N, &mut held, src, dst);
    neighbours[..N].copy_from_slice(&held);
}

// Its bodies are not in the frame of a chunk, which has the tape; no more is a later halving's.
#[inline(never)]
pub(crate) fn halve_first(stages: usize, neighbours: &mut [i32], src: &[i32], dst: &mut [i32])
    requires { (stages ≤ length neighbours.old) × (length src.now ≡ length dst.old * 2) }
    ensures { let halved = pairs stages neighbours.old (map (wrap w32) src.now) in
        (neighbours.new ≡ halved.state) × (dst.new ≡ halved.vals) }
{
    match stages {
        1 => first_of::<1>(neighbours, src, dst),
        2 => first_of::<2>(neighbours, src, dst),
        3 => first_of::<3>(neighbours, src, dst),
        4 => first_of::<4>(neighbours, src, dst),
        5 => first_of::<5>(neighbours, src, dst),
        6 => first_of::<6>(neighbours, src, dst),
        7 => first_of::<7>(neighbours, src, dst),
        8 => first_of::<8>(neighbours, src, dst),
        _ => first_on(stages, neighbours, src, dst),
    }
}
