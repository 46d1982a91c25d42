// A block of samples on a state, written to a span.
use crate::element::{Element, OnStack};
use crate::lent::room;
use crate::record::Words;
use crate::span::Span;
use crate::state::State;
use crate::value::Value;
use refusal::Refusal;
use std::alloc::{AllocError, Global};

pub trait Block: State {
    type Sample: Element;

    // What is counted: the outputs written, or the samples taken too.
    type Counts: Value;

    fn process(
        &mut self,
        samples: &[Self::Sample],
        span: &mut [Self::Sample],
    ) -> Result<Self::Counts, Refusal>;
}

// Whether a block answers as a record says: the state, the samples and the span, and then the answers. Any element will do: samples and places stand in memory
// that is asked for.
pub fn replay_block<S: Block>(words: Words<'_>, alloc: Global) -> Result<bool, AllocError> {
    let mut answers = words;
    let mut state = S::from_words(&mut answers);
    let samples: Vec<S::Sample> = answers.slice().elements(alloc)?;
    let lent = answers.slice();
    let mut places: Vec<S::Sample> = lent.elements(alloc)?;
    let span = Span::of(lent, &mut places);
    let counts = state.process(&samples, span.places);
    Ok(answers.same_answer(counts) && span.is_same(&mut answers) && state.is_last(answers, words))
}

// The same with room on the stack: no memory is asked for.
pub fn replay_block_on_stack<S: Block>(words: Words<'_>) -> bool
where
    S::Sample: OnStack,
{
    let mut answers = words;
    let mut state = S::from_words(&mut answers);
    S::Sample::fits();
    let mut read = room::<S::Sample>();
    let mut written = room::<S::Sample>();
    let samples = answers.slice().put(&mut read);
    let span = Span::of(answers.slice(), &mut written);
    let counts = state.process(samples, span.places);
    answers.same_answer(counts) && span.is_same(&mut answers) && state.is_last(answers, words)
}
