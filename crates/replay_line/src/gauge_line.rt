// The operations of the gauge line. Each takes the words behind its code: its inputs, then the answers.
use crate::numbers::{read_numbers, same_numbers};
use line::{Line, LineStep, Settings, zeros};
use nonrecursive::Thinning;
use records::lent::room;
use records::record::Words;
use records::span::Span;
use refusal::Refusal;

// Which kind thins: 0 the integrators, any other number the neighbours. No `From`: the type is nonrecursive's.
fn thinning_of(number: usize) -> Thinning {
    match number {
        0 => Thinning::Integrators,
        _ => Thinning::Neighbours,
    }
}

fn settings_of(words: &mut Words<'_>) -> Settings {
    Settings {
        stages: words.long(),
        r: words.long(),
        factor: words.long(),
        depth: words.long(),
        phases: words.long(),
        phase_taps: words.long(),
        straight: words.long() != 0,
        step: words.value(),
        thinning: thinning_of(words.long()),
    }
}

fn opened(words: &mut Words<'_>) -> Result<Line, Refusal> {
    let settings = settings_of(words);
    let mut read_taps = room::<i16>();
    let mut read_prototype = room::<f32>();
    let taps = words.slice().put(&mut read_taps);
    let prototype = words.slice().put(&mut read_prototype);
    Line::open(settings, taps, prototype)
}

pub(crate) fn open(mut words: Words<'_>) -> bool {
    let opened = opened(&mut words);
    words.same_answer(opened.map(|_| ())) && words.is_empty()
}

// A feed of samples to a line, and whether its answers are those that follow.
fn same_feed(words: &mut Words<'_>, line: &mut Line) -> bool {
    let mut read = room::<i32>();
    let mut written = room::<f32>();
    let samples = words.slice().put(&mut read);
    let span = Span::of(words.slice(), &mut written);
    let moved = line.feed(samples, span.places);
    words.same_answer(moved) && words.same(line.cuts) && span.is_same(words)
}

// The count of feeds, then each of them, which gets the line that the one before left.
pub(crate) fn feeds(mut words: Words<'_>) -> bool {
    let mut line = opened(&mut words).unwrap_or(zeros());
    for _ in 0..words.word() {
        if !same_feed(&mut words, &mut line) {
            return false;
        }
    }
    words.is_empty()
}

fn same_step(words: &mut Words<'_>, step: Result<LineStep, Refusal>) -> bool {
    match step {
        Err(refusal) => words.same_refusal(refusal),
        Ok(_) => false,
    }
}

// A feed, a reset and a step of a line that row 15 names: each is refused, and the feed hands the line back as it was.
pub(crate) fn damaged(mut words: Words<'_>) -> bool {
    let mut line = opened(&mut words).unwrap_or(zeros());
    let mut numbers = words;
    read_numbers(&mut words, &mut line);
    same_feed(&mut words, &mut line)
        && same_numbers(&mut numbers, &line)
        && words.same_answer(line.reset())
        && same_step(&mut words, line.step(&[0], 0, true))
        && words.is_empty()
}
