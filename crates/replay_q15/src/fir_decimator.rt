// FirDecimator as records have it, and its opening.
use q15::{Cut, FirDecimator, Q15};
use records::lent::room;
use records::record::Words;
use records::reset::Reset;
use records::sample::Sampled;
use records::state::{State, same_opened};
use refusal::Refusal;

#[derive(Drop)]
pub(crate) struct Decimator(FirDecimator);

impl State for Decimator {
    fn from_words(words: &mut Words<'_>) -> Decimator {
        Decimator(FirDecimator {
            tap_count: words.long(),
            factor: words.long(),
            wait: words.long(),
            taps: words.slice().array(),
            delay: words.slice().array(),
        })
    }

    fn refused() -> Decimator {
        Decimator(FirDecimator::zeros())
    }

    fn is_same(&self, answers: &mut Words<'_>, before: &Decimator) -> bool {
        let state = &self.0;
        answers.same_long(state.tap_count)
            && answers.same_long(state.factor)
            && answers.same_long(state.wait)
            && answers.same_places(&state.taps, &before.0.taps)
            && answers.same_places(&state.delay, &before.0.delay)
    }
}

impl Reset for Decimator {
    fn reset(&mut self) -> Result<(), Refusal> {
        self.0.reset()
    }
}

pub(crate) fn new(mut words: Words<'_>) -> bool {
    let factor = words.long();
    let mut read = room::<i16>();
    let taps = words.slice().put(&mut read);
    let opened = FirDecimator::new(taps, factor);
    same_opened(words, opened.map(Decimator))
}

// What a sample made, and then whether it was cut.
fn told_cut(made: Option<Cut>) -> (Option<i16>, bool) {
    match made {
        None => (None, false),
        Some(Cut { value, cut }) => (Some(value.0), cut),
    }
}

impl Sampled for Decimator {
    type Sample = i16;

    type Made = (Option<i16>, bool);

    fn process_sample(&mut self, sample: i16) -> Result<(Option<i16>, bool), Refusal> {
        self.0.process_sample(Q15(sample)).map(told_cut)
    }
}
