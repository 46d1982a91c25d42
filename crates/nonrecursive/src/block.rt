// Blocks of `NonrecursiveDecimator`: whole frames go through the halvings one after the other, on a tape; the samples before and behind them one by one.
ghost use Rattle.std.specs.Prelude.{◌≡◌, true, [], map, ◌++◌, ◌+◌, ◌-◌, ◌*◌, ◌≤◌, ◌<◌, length, take, drop};
ghost use Rattle.std.specs.Int.{w32};
ghost use Rattle.theory.specs.Wrap.{wrap};
ghost use Rattle.theory.specs.Sections.{onto, state, outs};
ghost use Rattle.refusal.specs.Outcome.{none_moved, told_on};
ghost use Rattle.nonrecursive.specs.NonrecursiveDecimator as D;
ghost use Rattle.nonrecursive.specs.inner.Tape.{pairs, lined, put};

use crate::first::halve_first;
use crate::nonrecursive_decimator::{
    MOST_NEIGHBOURS, nonrecursive_at, state_answer, sum_neighbours,
};
use refusal::{Moved, NONE_MOVED, Refusal};

// The most samples of a chunk.
const CHUNK: usize = 256;

// What the first halving hands on of them.
const TAPE: usize = CHUNK / 2;

// A valid state's stages and factor. They go by themselves where one is enough, and where the state is not known to be valid.
#[derive(Clone, Copy)]
struct Settings {
    stages: usize,
    r: usize,
    ghost inside: { D.valid_at stages r 0 ≡ true },
}

// Pairs of values at the front of the tape each hand one on, in their order. How many stands beside the tape: lent exactly its values instead, a block of three stages at r = 16 takes a fifth more
// time. By the pair's number: what a pair hands on is written before later pairs are read.
fn halve_on(stages: usize, neighbours: &mut [i32], tape: &mut [i32], count: usize)
    requires { count * 2 ≤ length tape.old }
    ensures { let halved = pairs stages neighbours.old (take (count * 2) tape.old) in
        (neighbours.new ≡ halved.state) × (take count tape.new ≡ halved.vals) × (length tape.new ≡ length tape.old) }
{
    for i in 0..count {
        let at = i * 2;
        sum_neighbours(stages, neighbours, tape[at]);
        let second = sum_neighbours(stages, neighbours, tape[at + 1]);
        tape[i] = second;
    }
}

// The same of a number of stages that the compiler knows, the neighbours in a local: it unrolls the sums, and holds the neighbours in registers.
fn halve_of<const N: usize>(neighbours: &mut [i32], tape: &mut [i32], count: usize)
    requires { (N ≤ length neighbours.old) × (count * 2 ≤ length tape.old) }
    ensures { let halved = pairs N neighbours.old (take (count * 2) tape.old) in
        (neighbours.new ≡ halved.state) × (take count tape.new ≡ halved.vals) × (length tape.new ≡ length tape.old) }
{
    let mut held = [0; N];
    held.copy_from_slice(&neighbours[..N]);
    halve_on(N, &mut held, tape, count);
    neighbours[..N].copy_from_slice(&held);
}

#[inline(never)]
fn halve(stages: usize, neighbours: &mut [i32], tape: &mut [i32], count: usize)
    requires { (stages ≤ length neighbours.old) × (count * 2 ≤ length tape.old) }
    ensures { let halved = pairs stages neighbours.old (take (count * 2) tape.old) in
        (neighbours.new ≡ halved.state) × (take count tape.new ≡ halved.vals) × (length tape.new ≡ length tape.old) }
{
    match stages {
        1 => halve_of::<1>(neighbours, tape, count),
        2 => halve_of::<2>(neighbours, tape, count),
        3 => halve_of::<3>(neighbours, tape, count),
        4 => halve_of::<4>(neighbours, tape, count),
        5 => halve_of::<5>(neighbours, tape, count),
        6 => halve_of::<6>(neighbours, tape, count),
        7 => halve_of::<7>(neighbours, tape, count),
        8 => halve_of::<8>(neighbours, tape, count),
        _ => halve_on(stages, neighbours, tape, count),
    }
}

// A sum, where there is one, at its place of the span. Answers the next place.
fn put_sum(dst: &mut [i32], at: usize, sum: Option<i32>) -> usize
    requires { at < length dst.old }
    ensures { (dst.new ≡ put dst.old at sum) × (result ≡ at + length (onto sum [])) }
{
    if let Some(y) = sum {
        dst[at] = y;
        return at + 1;
    }
    at
}

// Sums of r values each, of the tape's front: halving by halving, until the factor is used up. No range over the halvings' number by `ilog2`: tried, and blocks of three stages at r = 16
// take 3 to 24 % more time, as the code comes to lie.
fn thin_tape(stages: usize, r: usize, neighbours: &mut [i32], tape: &mut [i32], count: usize)
    requires { (D.power_of_two r ≡ true) × (count * r ≤ length tape.old) × (D.halvings r * stages ≤ length neighbours.old) }
    ensures { let thinned = lined stages (D.halvings r) neighbours.old (take (count * r) tape.old) in
        (neighbours.new ≡ thinned.state) × (take count tape.new ≡ thinned.vals) × (length tape.new ≡ length tape.old) }
{
    let mut left = r;
    let mut from = 0;
    while 2 <= left {
        left /= 2;
        halve(stages, &mut neighbours[from..], tape, count * left);
        from += stages;
    }
}

// A feed of the decimator, sample by sample, while the span has a place.
fn one_by_one(
    stages: usize,
    r: usize,
    place: &mut usize,
    neighbours: &mut [i32; MOST_NEIGHBOURS],
    src: &[i32],
    dst: &mut [i32],
) -> Moved
    ensures within { (result.taken ≤ length src.now) × (result.written ≤ length dst.old) }
    ensures feed { let fed = D.fed_block (D.nonrecursive_of stages r neighbours.old place.old) src.now (length dst.old) in
        (result.taken ≡ fed.taken) × (result.written ≡ length fed.written)
        × (D.nonrecursive_of stages r neighbours.new place.new ≡ fed.line) × (dst.new ≡ fed.written ++ drop (length fed.written) dst.old) }
{
    let mut written = 0;
    for (taken, sample) in src.iter().enumerate() {
        if written == dst.len() {
            return Moved { taken, written };
        }
        let sum = nonrecursive_at(stages, r, place, neighbours, *sample);
        written = put_sum(dst, written, sum);
    }
    Moved {
        taken: src.len(),
        written,
    }
}

// How many frames of r samples there are, for so many places; no more than a chunk has.
fn frames_in(r: usize, samples: usize, places: usize) -> usize
    requires { 0 < r }
    ensures { (result * r ≤ samples) × (result ≤ places) × (result * r ≤ 256) }
{
    (samples.min(CHUNK) / r).min(places)
}

fn blank() -> [i32; TAPE]
    ensures { length result ≡ 128 }
{
    [0; TAPE]
}

// Each sample is read by itself: so it is known to be an i32, which wrapping leaves alone. The compiler leaves nothing of the loop.
fn read_each(samples: &[i32])
    ensures { map (wrap w32) samples.now ≡ samples.now }
{
    for sample in samples {
        let _read = *sample;
    }
}

// Samples handed on as they are. As a whole: of a loop over both slices the compiler does not see that they lie apart, and a block at r = 1 takes 1.3 to 1.4 times
// as long.
fn hand_on(dst: &mut [i32], samples: &[i32])
    requires { length samples.now ≡ length dst.old }
    ensures { dst.new ≡ map (wrap w32) samples.now }
{
    read_each(samples);
    dst.copy_from_slice(samples);
}

// A frame of r samples for each place of dst, where the place is 0: the first halving reads them, the others go on a tape.
fn chunk(settings: Settings, neighbours: &mut [i32; MOST_NEIGHBOURS], src: &[i32], dst: &mut [i32])
    requires { (length src.now ≡ length dst.old * settings.r) × (length src.now ≤ 256) }
    ensures sums { dst.new ≡ outs D.nonrecursive (D.nonrecursive_of settings.stages settings.r neighbours.old 0) src.now }
    ensures state { D.nonrecursive_of settings.stages settings.r neighbours.new 0 ≡ state D.nonrecursive (D.nonrecursive_of settings.stages settings.r neighbours.old 0) src.now }
{
    if settings.r < 2 {
        hand_on(dst, src);
        return;
    }
    let count = dst.len();
    let half = settings.r / 2;
    let stages = settings.stages;
    let mut tape = blank();
    halve_first(stages, neighbours, src, &mut tape[..count * half]);
    thin_tape(stages, half, &mut neighbours[stages..], &mut tape, count);
    dst.copy_from_slice(&tape[..count]);
}

// Whole frames, where the place is 0: as many as the samples and the span have room for. No range: a turn has as many as the tape holds of those that are left. By
// positions: they are the counts that it answers, and would stand beside the parts that src and dst are split into.
fn frames(
    settings: Settings,
    neighbours: &mut [i32; MOST_NEIGHBOURS],
    src: &[i32],
    dst: &mut [i32],
) -> Moved
    ensures counts { (result.taken ≤ length src.now) × (result.written ≤ length dst.old) × (result.taken ≡ result.written * settings.r) }
    ensures state { D.nonrecursive_of settings.stages settings.r neighbours.new 0 ≡ state D.nonrecursive (D.nonrecursive_of settings.stages settings.r neighbours.old 0) (take result.taken src.now) }
    ensures span { let sums = outs D.nonrecursive (D.nonrecursive_of settings.stages settings.r neighbours.old 0) (take result.taken src.now) in
        (length sums ≡ result.written) × (dst.new ≡ sums ++ drop result.written dst.old) }
{
    let r = settings.r;
    let mut taken = 0;
    let mut written = 0;
    let mut count = frames_in(r, src.len(), dst.len());
    while 0 < count {
        let samples = count * r;
        chunk(
            settings,
            neighbours,
            &src[taken..taken + samples],
            &mut dst[written..written + count],
        );
        taken += samples;
        written += count;
        count = frames_in(r, src.len() - taken, dst.len() - written);
    }
    Moved { taken, written }
}

// The same, where a frame may have begun: then nothing is done.
fn whole_frames(
    settings: Settings,
    place: usize,
    neighbours: &mut [i32; MOST_NEIGHBOURS],
    src: &[i32],
    dst: &mut [i32],
) -> Moved
    ensures counts { (result.taken ≤ length src.now) × (result.written ≤ length dst.old) × (result.taken ≤ result.written * settings.r - place) }
    ensures state { D.nonrecursive_of settings.stages settings.r neighbours.new place ≡ state D.nonrecursive (D.nonrecursive_of settings.stages settings.r neighbours.old place) (take result.taken src.now) }
    ensures span { let sums = outs D.nonrecursive (D.nonrecursive_of settings.stages settings.r neighbours.old place) (take result.taken src.now) in
        (length sums ≡ result.written) × (dst.new ≡ sums ++ drop result.written dst.old) }
{
    if place != 0 {
        return NONE_MOVED;
    }
    frames(settings, neighbours, src, dst)
}

// Samples up to the end of a frame that has begun.
fn to_a_frame(r: usize, place: usize, samples: usize) -> usize
    requires { place < r }
    ensures { result ≤ samples }
{
    if place == 0 {
        return 0;
    }
    samples.min(r - place)
}

// A block, the fields lent.
#[tactic(auto, unfolding(crate::specs::NonrecursiveDecimator::block, crate::specs::NonrecursiveDecimator::block_span))]
pub fn block_at(
    stages: usize,
    r: usize,
    place: &mut usize,
    neighbours: &mut [i32; MOST_NEIGHBOURS],
    src: &[i32],
    dst: &mut [i32],
) -> Result<Moved, Refusal>
    ensures answer { told_on none_moved result (D.nonrecursive_of stages r neighbours.new place.new) ≡ D.block (D.nonrecursive_of stages r neighbours.old place.old) src.now (length dst.old) }
    ensures span { dst.new ≡ D.block_span (D.nonrecursive_of stages r neighbours.old place.old) src.now dst.old }
{
    state_answer(stages, r, *place)?;
    let head = to_a_frame(r, *place, src.len());
    let begun = one_by_one(stages, r, place, neighbours, &src[..head], dst);
    let settings = Settings { stages, r };
    let framed = whole_frames(
        settings,
        *place,
        neighbours,
        &src[begun.taken..],
        &mut dst[begun.written..],
    );
    let taken = begun.taken + framed.taken;
    let written = begun.written + framed.written;
    let rest = one_by_one(
        stages,
        r,
        place,
        neighbours,
        &src[taken..],
        &mut dst[written..],
    );
    Ok(Moved {
        taken: taken + rest.taken,
        written: written + rest.written,
    })
}
