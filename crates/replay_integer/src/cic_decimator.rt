// The operations of CicDecimator. Each takes the words behind its code: its inputs, then the answers.
use crate::cic::Cic;
use integer::CicDecimator;
use nonrecursive::NonrecursiveDecimator;
use records::block::{Block, replay_block_on_stack};
use records::lent::room;
use records::record::Words;
use records::span::Span;
use records::state::State;
use refusal::{Moved, Refusal};

#[derive(Drop)]
pub(crate) struct Decimator(CicDecimator);

impl State for Decimator {
    fn from_words(words: &mut Words<'_>) -> Decimator {
        Decimator(CicDecimator {
            stages: words.long(),
            r: words.long(),
            integrator_state: words.values(),
            comb_state: words.values(),
            sample_counter: words.long(),
        })
    }

    fn refused() -> Decimator {
        Decimator(CicDecimator::fresh(0, 0))
    }

    fn is_same(&self, answers: &mut Words<'_>, _before: &Self) -> bool {
        let state = &self.0;
        answers.same_long(state.stages)
            && answers.same_long(state.r)
            && answers.same_values(&state.integrator_state)
            && answers.same_values(&state.comb_state)
            && answers.same_long(state.sample_counter)
    }
}

impl Cic for Decimator {
    fn opened(stages: usize, r: usize) -> Result<Decimator, Refusal> {
        Ok(Decimator(CicDecimator::new(stages, r)?))
    }

    fn gain(&self) -> Result<u64, Refusal> {
        self.0.gain()
    }

    fn gain_bits(&self) -> Result<u32, Refusal> {
        self.0.gain_bits()
    }
}

impl Block for Decimator {
    type Sample = i32;

    type Counts = Moved;

    fn process(&mut self, samples: &[i32], span: &mut [i32]) -> Result<Moved, Refusal> {
        self.0.process_block(samples, span)
    }
}

// A sample through either call.
pub(crate) fn sample<F>(mut words: Words<'_>, process: F) -> bool
where
    F: FnOnce(&mut CicDecimator, i32) -> Result<Option<i32>, Refusal>,
    requires { F.IsAlwaysCallable process }
{
    let mut state = Decimator::from_words(&mut words);
    let sample = words.value();
    words.same_answer(process(&mut state.0, sample)) && state.is_last(words, Words::none())
}

// The same samples from an opening of the sums of neighbours: the same counts and span. Of a refused opening the call goes to the state that C is given of it.
fn thinned(mut words: Words<'_>) -> bool {
    let state = Decimator::from_words(&mut words);
    let mut read = room::<i32>();
    let mut written = room::<i32>();
    let samples = words.slice().put(&mut read);
    let span = Span::of(words.slice(), &mut written);
    let mut opened = NonrecursiveDecimator::new(state.0.stages, state.0.r).unwrap_or(
        NonrecursiveDecimator::fresh(0, 0),
    );
    let moved = opened.process_block(samples, span.places);
    words.same_answer(moved) && span.is_same(&mut words)
}

// A block of a state as it is opened, of a factor that is a power of two.
pub(crate) fn fresh_block(words: Words<'_>) -> bool {
    replay_block_on_stack::<Decimator>(words) && thinned(words)
}
