// Linear resampling of a list, which has no state.
use crate::element::{Element, OnStack};
use crate::lent::room;
use crate::record::Words;
use crate::span::Span;
use refusal::Refusal;
use std::alloc::{AllocError, Global};

pub trait Linear {
    type Sample: Element;

    // What the ratio is told in.
    type Ratio: Element;

    fn resample(
        samples: &[Self::Sample],
        span: &mut [Self::Sample],
        ratio: Self::Ratio,
    ) -> Result<usize, Refusal>;
}

// Whether resampling answers as a record says: the ratio, the samples and the span, and then the answers. Any element will do: samples and places stand in memory
// that is asked for.
pub fn replay_linear<L: Linear>(mut words: Words<'_>, alloc: Global) -> Result<bool, AllocError> {
    let ratio = words.value();
    let samples: Vec<L::Sample> = words.slice().elements(alloc)?;
    let lent = words.slice();
    let mut places: Vec<L::Sample> = lent.elements(alloc)?;
    let span = Span::of(lent, &mut places);
    let count = L::resample(&samples, span.places, ratio);
    Ok(words.same_answer(count) && span.is_same(&mut words) && words.is_empty())
}

// The same with room on the stack: no memory is asked for.
pub fn replay_linear_on_stack<L: Linear>(mut words: Words<'_>) -> bool
where
    L::Sample: OnStack,
{
    let ratio = words.value();
    L::Sample::fits();
    let mut read = room::<L::Sample>();
    let mut written = room::<L::Sample>();
    let samples = words.slice().put(&mut read);
    let span = Span::of(words.slice(), &mut written);
    let count = L::resample(samples, span.places, ratio);
    words.same_answer(count) && span.is_same(&mut words) && words.is_empty()
}
