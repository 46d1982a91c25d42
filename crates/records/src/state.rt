// A converter's state as a record has it. A replaying crate wraps the states of its layer in structs of its own, for which it writes this.
use crate::record::Words;
use refusal::Refusal;

pub trait State: Drop {
    // The state that the words begin with, which are then behind.
    fn from_words(words: &mut Words<'_>) -> Self;

    // The state of a refused opening. A library that has a function for it is asked itself; without one it is the state that no words say.
    fn refused() -> Self
    where
        Self: Sized,
    {
        Self::from_words(&mut Words::none())
    }

    // Whether the answers say this state, which was `before` before the call.
    fn is_same(&self, answers: &mut Words<'_>, before: &Self) -> bool;

    // Whether this state is all that is left of the answers. `lent` begins with the one before the call; no words at all are one of zeros.
    fn is_last(&self, mut answers: Words<'_>, mut lent: Words<'_>) -> bool {
        let before = Self::from_words(&mut lent);
        self.is_same(&mut answers, &before) && answers.is_empty()
    }
}

// Whether an opening answers as a record says: the refusal, and then the state, that of `refused` where it was refused.
pub fn same_opened<S: State>(mut answers: Words<'_>, opened: Result<S, Refusal>) -> bool {
    let (answer, state) = match opened {
        Ok(state) => (Ok(()), state),
        Err(refusal) => (Err(refusal), S::refused()),
    };
    answers.same_answer(answer) && state.is_last(answers, Words::none())
}
