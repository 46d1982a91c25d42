// What both CIC converters have: an opening, the gain and its bits. Each operation takes the words behind its code: its inputs, then the answers.
use records::record::Words;
use records::state::{State, same_opened};
use refusal::Refusal;

pub(crate) trait Cic: State {
    fn opened(stages: usize, r: usize) -> Result<Self, Refusal>;

    fn gain(&self) -> Result<u64, Refusal>;

    fn gain_bits(&self) -> Result<u32, Refusal>;
}

pub(crate) fn new<C: Cic>(mut words: Words<'_>) -> bool {
    let stages = words.long();
    let r = words.long();
    same_opened(words, C::opened(stages, r))
}

pub(crate) fn gain<C: Cic>(mut words: Words<'_>) -> bool {
    let state = C::from_words(&mut words);
    words.same_answer(state.gain().map(|gain| gain as usize)) && words.is_empty()
}

pub(crate) fn gain_bits<C: Cic>(mut words: Words<'_>) -> bool {
    let state = C::from_words(&mut words);
    words.same_answer(state.gain_bits()) && words.is_empty()
}
