// The half-band converters. Each operation takes the words behind its code: its inputs, then the answers.
use half_band::{DEC_DELAYS, HbfDec, HbfInt, INT_DELAYS, MOST_HALF_BAND_TAPS};
use records::block::Block;
use records::lent::room;
use records::record::Words;
use records::reset::Reset;
use records::sample::Sampled;
use records::state::{State, same_opened};
use refusal::Refusal;

pub(crate) trait HalfBand: State {
    fn opened(taps: &[f32]) -> Result<Self, Refusal>;
}

pub(crate) fn new<S: HalfBand>(mut words: Words<'_>) -> bool {
    let mut read = room::<f32>();
    let taps = words.slice().put(&mut read);
    same_opened(words, S::opened(taps))
}

// The state of either converter; how long the delay is, is its own.
#[derive(Drop)]
struct Parts<const N: usize> {
    m: usize,
    coeffs: [f32; MOST_HALF_BAND_TAPS],
    delay: [f32; N],
}

impl<const N: usize> Parts<N> {
    fn from_words(words: &mut Words<'_>) -> Parts<N> {
        Parts {
            m: words.long(),
            coeffs: words.slice().array(),
            delay: words.slice().array(),
        }
    }

    fn is_same(&self, answers: &mut Words<'_>, before: &Parts<N>) -> bool {
        answers.same_long(self.m)
            && answers.same_places(&self.coeffs, &before.coeffs)
            && answers.same_places(&self.delay, &before.delay)
    }
}

// What follows stands twice, as in cascade.rt: one type for both would want a trait that names each method here once more, for either.
#[derive(Drop)]
pub(crate) struct Dec(HbfDec);

impl Dec {
    fn parts(&self) -> Parts<DEC_DELAYS> {
        let HbfDec { m, coeffs, delay } = self.0;
        Parts { m, coeffs, delay }
    }
}

impl State for Dec {
    fn from_words(words: &mut Words<'_>) -> Dec {
        let Parts { m, coeffs, delay } = Parts::from_words(words);
        Dec(HbfDec { m, coeffs, delay })
    }

    fn refused() -> Dec {
        Dec(HbfDec::zeros())
    }

    fn is_same(&self, answers: &mut Words<'_>, before: &Dec) -> bool {
        self.parts().is_same(answers, &before.parts())
    }
}

impl HalfBand for Dec {
    fn opened(taps: &[f32]) -> Result<Dec, Refusal> {
        Ok(Dec(HbfDec::new(taps)?))
    }
}

impl Reset for Dec {
    fn reset(&mut self) -> Result<(), Refusal> {
        self.0.reset()
    }
}

impl Block for Dec {
    type Sample = f32;

    type Counts = usize;

    fn process(&mut self, samples: &[f32], span: &mut [f32]) -> Result<usize, Refusal> {
        self.0.process(samples, span)
    }
}

#[derive(Drop)]
pub(crate) struct Int(HbfInt);

impl Int {
    fn parts(&self) -> Parts<INT_DELAYS> {
        let HbfInt { m, coeffs, delay } = self.0;
        Parts { m, coeffs, delay }
    }
}

// As `Dec`, over another type of the library.
impl State for Int {
    fn from_words(words: &mut Words<'_>) -> Int {
        let Parts { m, coeffs, delay } = Parts::from_words(words);
        Int(HbfInt { m, coeffs, delay })
    }

    fn refused() -> Int {
        Int(HbfInt::zeros())
    }

    fn is_same(&self, answers: &mut Words<'_>, before: &Int) -> bool {
        self.parts().is_same(answers, &before.parts())
    }
}

impl HalfBand for Int {
    fn opened(taps: &[f32]) -> Result<Int, Refusal> {
        Ok(Int(HbfInt::new(taps)?))
    }
}

impl Reset for Int {
    fn reset(&mut self) -> Result<(), Refusal> {
        self.0.reset()
    }
}

impl Block for Int {
    type Sample = f32;

    type Counts = usize;

    fn process(&mut self, samples: &[f32], span: &mut [f32]) -> Result<usize, Refusal> {
        self.0.process(samples, span)
    }
}

// The even output, and then the odd one.
impl Sampled for Int {
    type Sample = f32;

    type Made = (f32, f32);

    fn process_sample(&mut self, sample: f32) -> Result<(f32, f32), Refusal> {
        self.0.process_sample(sample)
    }
}

pub(crate) fn process_pair(words: Words<'_>) -> bool {
    let mut answers = words;
    let mut state = Dec::from_words(&mut answers);
    let first = answers.value();
    let second = answers.value();
    answers.same_answer(state.0.process_pair(first, second)) && state.is_last(answers, words)
}
