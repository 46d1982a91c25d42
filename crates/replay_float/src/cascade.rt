// The cascades of half-band converters. Each operation takes the words behind its code: its inputs, then the answers. Twice, since the two share no trait: one type for both
// would want a trait that names each method here once more, for either.
use half_band::{HbfDecCascade, HbfIntCascade};
use records::block::Block;
use records::record::Words;
use records::reset::Reset;
use records::state::{State, same_opened};
use refusal::Refusal;
use std::marker::PhantomData;

// What is opened with a depth: the cascades, and the stream of one.
pub(crate) trait Cascade: State {
    fn opened(depth: usize) -> Result<Self, Refusal>;
}

pub(crate) fn new<S: Cascade>(mut words: Words<'_>) -> bool {
    let depth = words.long();
    same_opened(words, S::opened(depth))
}

#[derive(Drop)]
pub(crate) struct DecCascade(HbfDecCascade);

impl State for DecCascade {
    fn from_words(words: &mut Words<'_>) -> DecCascade {
        DecCascade(HbfDecCascade {
            depth: words.long(),
            delays: words.slice().array(),
            table: PhantomData,
        })
    }

    fn refused() -> DecCascade {
        DecCascade(HbfDecCascade::zeros())
    }

    fn is_same(&self, answers: &mut Words<'_>, before: &DecCascade) -> bool {
        answers.same_long(self.0.depth) && answers.same_places(&self.0.delays, &before.0.delays)
    }
}

impl Cascade for DecCascade {
    fn opened(depth: usize) -> Result<DecCascade, Refusal> {
        Ok(DecCascade(HbfDecCascade::new(depth)?))
    }
}

impl Reset for DecCascade {
    fn reset(&mut self) -> Result<(), Refusal> {
        self.0.reset()
    }
}

impl Block for DecCascade {
    type Sample = f32;

    type Counts = usize;

    fn process(&mut self, samples: &[f32], span: &mut [f32]) -> Result<usize, Refusal> {
        self.0.process(samples, span)
    }
}

#[derive(Drop)]
pub(crate) struct IntCascade(HbfIntCascade);

impl State for IntCascade {
    fn from_words(words: &mut Words<'_>) -> IntCascade {
        IntCascade(HbfIntCascade {
            depth: words.long(),
            delays: words.slice().array(),
        })
    }

    fn refused() -> IntCascade {
        IntCascade(HbfIntCascade::zeros())
    }

    fn is_same(&self, answers: &mut Words<'_>, before: &IntCascade) -> bool {
        answers.same_long(self.0.depth) && answers.same_places(&self.0.delays, &before.0.delays)
    }
}

impl Cascade for IntCascade {
    fn opened(depth: usize) -> Result<IntCascade, Refusal> {
        Ok(IntCascade(HbfIntCascade::new(depth)?))
    }
}

impl Reset for IntCascade {
    fn reset(&mut self) -> Result<(), Refusal> {
        self.0.reset()
    }
}

impl Block for IntCascade {
    type Sample = f32;

    type Counts = usize;

    fn process(&mut self, samples: &[f32], span: &mut [f32]) -> Result<usize, Refusal> {
        self.0.process(samples, span)
    }
}
