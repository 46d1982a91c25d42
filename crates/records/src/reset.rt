// A reset takes a state, and answers as an opening does.
use crate::record::Words;
use crate::state::State;
use refusal::Refusal;

pub trait Reset: State {
    fn reset(&mut self) -> Result<(), Refusal>;
}

// Whether a reset answers as a record says: the state, and then the answers.
pub fn replay_reset<S: Reset>(words: Words<'_>) -> bool {
    let mut answers = words;
    let mut state = S::from_words(&mut answers);
    answers.same_answer(state.reset()) && state.is_last(answers, words)
}
