// A sample to a state, which answers with what it made, or writes its outputs to a span.
use crate::element::{Element, OnStack};
use crate::lent::room;
use crate::record::Words;
use crate::span::Span;
use crate::state::State;
use crate::value::Value;
use refusal::Refusal;
use std::alloc::{AllocError, Global};

pub trait Sampled: State {
    type Sample: Element;

    type Made: Value;

    fn process_sample(&mut self, sample: Self::Sample) -> Result<Self::Made, Refusal>;
}

// Whether a sample answers as a record says: the state and the sample, and then the answers.
pub fn replay_sample<S: Sampled>(words: Words<'_>) -> bool {
    let mut answers = words;
    let mut state = S::from_words(&mut answers);
    let sample = answers.value();
    answers.same_answer(state.process_sample(sample)) && state.is_last(answers, words)
}

pub trait Pushed: State {
    type Sample: Element;

    fn push(&mut self, sample: Self::Sample, span: &mut [Self::Sample]) -> Result<usize, Refusal>;
}

// Whether a sample with several outputs answers as a record says: the state, the sample and the span, and then the answers. Any element will do: the places stand
// in memory that is asked for.
pub fn replay_push<S: Pushed>(words: Words<'_>, alloc: Global) -> Result<bool, AllocError> {
    let mut answers = words;
    let mut state = S::from_words(&mut answers);
    let sample = answers.value();
    let lent = answers.slice();
    let mut places: Vec<S::Sample> = lent.elements(alloc)?;
    let span = Span::of(lent, &mut places);
    let written = state.push(sample, span.places);
    Ok(answers.same_answer(written) && span.is_same(&mut answers) && state.is_last(answers, words))
}

// The same with room on the stack: no memory is asked for.
pub fn replay_push_on_stack<S: Pushed>(words: Words<'_>) -> bool
where
    S::Sample: OnStack,
{
    let mut answers = words;
    let mut state = S::from_words(&mut answers);
    let sample = answers.value();
    S::Sample::fits();
    let mut places = room::<S::Sample>();
    let span = Span::of(answers.slice(), &mut places);
    let written = state.push(sample, span.places);
    answers.same_answer(written) && span.is_same(&mut answers) && state.is_last(answers, words)
}
