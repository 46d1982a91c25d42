// The operations of LinearPhaseFir. Each takes the words behind its code: its inputs, then the answers.
use linear_phase::LinearPhaseFir;
use records::block::Block;
use records::lent::room;
use records::record::Words;
use records::reset::Reset;
use records::sample::Sampled;
use records::span::Span;
use records::state::{State, same_opened};
use refusal::Refusal;

#[derive(Drop)]
pub(crate) struct Filter(LinearPhaseFir);

impl State for Filter {
    fn from_words(words: &mut Words<'_>) -> Filter {
        Filter(LinearPhaseFir {
            m: words.long(),
            odd: words.long() != 0,
            antisymmetric: words.long() != 0,
            taps: words.slice().array(),
            delay: words.slice().array(),
        })
    }

    fn refused() -> Filter {
        Filter(LinearPhaseFir::zeros())
    }

    fn is_same(&self, answers: &mut Words<'_>, before: &Filter) -> bool {
        let state = &self.0;
        answers.same_long(state.m)
            && answers.same_long(usize::from(state.odd))
            && answers.same_long(usize::from(state.antisymmetric))
            && answers.same_places(&state.taps, &before.0.taps)
            && answers.same_places(&state.delay, &before.0.delay)
    }
}

impl Reset for Filter {
    fn reset(&mut self) -> Result<(), Refusal> {
        self.0.reset()
    }
}

impl Sampled for Filter {
    type Sample = f32;

    type Made = f32;

    fn process_sample(&mut self, sample: f32) -> Result<f32, Refusal> {
        self.0.process(sample)
    }
}

impl Block for Filter {
    type Sample = f32;

    type Counts = usize;

    fn process(&mut self, samples: &[f32], span: &mut [f32]) -> Result<usize, Refusal> {
        self.0.block(samples, span)
    }
}

pub(crate) fn new(mut words: Words<'_>) -> bool {
    let odd = words.long() != 0;
    let antisymmetric = words.long() != 0;
    let mut read = room::<f32>();
    let taps = words.slice().put(&mut read);
    let opened = LinearPhaseFir::new(odd, antisymmetric, taps);
    same_opened(words, opened.map(Filter))
}

pub(crate) fn response_length(words: Words<'_>) -> bool {
    let mut answers = words;
    let state = Filter::from_words(&mut answers);
    answers.same_answer(state.0.response_length()) && state.is_last(answers, words)
}

// A block whose samples stand in its span.
pub(crate) fn inplace(words: Words<'_>) -> bool {
    let mut answers = words;
    let mut state = Filter::from_words(&mut answers);
    let mut places = room::<f32>();
    let span = Span::of(answers.slice(), &mut places);
    let written = state.0.inplace(span.places);
    answers.same_answer(written) && span.is_same(&mut answers) && state.is_last(answers, words)
}
