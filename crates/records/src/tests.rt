// Records of a state and an element that are no converter's, written by hand. Of an element and a state no more is wanted than is written here.
ghost use Rattle.std.specs.Prelude.{◌≡◌, ◌==◌};

use crate::block::{Block, replay_block};
use crate::element::Element;
use crate::linear::{Linear, replay_linear};
use crate::record::Words;
use crate::sample::{Pushed, replay_push};
use crate::state::{State, same_opened};
use refusal::Refusal;
use std::test::Fail;

#[derive(Clone, Copy, PartialEq)]
struct Level {
    height: u32,
}

impl Element for Level {
    ghost meant = { λ word. record { height = word } };

    ghost recorded = { λ x word. word == x.height };

    fn from_word(word: u32) -> Level {
        Level { height: word }
    }

    fn is_recorded_as(self, word: u32) -> bool {
        word == self.height
    }
}

// A running sum of levels.
#[derive(Drop)]
struct Sum {
    total: u32,
}

impl State for Sum {
    fn from_words(words: &mut Words<'_>) -> Sum {
        Sum {
            total: words.word(),
        }
    }

    fn is_same(&self, answers: &mut Words<'_>, _before: &Sum) -> bool {
        answers.same(self.total)
    }
}

impl Block for Sum {
    type Sample = Level;

    type Counts = usize;

    fn process(&mut self, samples: &[Level], span: &mut [Level]) -> Result<usize, Refusal> {
        let count = samples.len().min(span.len());
        for i in 0..count {
            self.total = self.total.wrapping_add(samples[i].height);
            span[i] = Level { height: self.total };
        }
        Ok(count)
    }
}

// Every place gets the sum.
impl Pushed for Sum {
    type Sample = Level;

    fn push(&mut self, sample: Level, span: &mut [Level]) -> Result<usize, Refusal> {
        self.total = self.total.wrapping_add(sample.height);
        span.fill(Level { height: self.total });
        Ok(span.len())
    }
}

// Each level raised by the ratio.
struct Raised;

impl Linear for Raised {
    type Sample = Level;

    type Ratio = u32;

    fn resample(samples: &[Level], span: &mut [Level], ratio: u32) -> Result<usize, Refusal> {
        let count = samples.len().min(span.len());
        for i in 0..count {
            let height = samples[i].height.wrapping_add(ratio);
            span[i] = Level { height };
        }
        Ok(count)
    }
}

// Behind 5 the samples 10, 2 and 3 come into four places of 7: the sums 15, 17 and 20 are written.
#[test]
fn a_block_is_replayed(rt: HostRuntime) -> Result<(), Fail> {
    for (last, same) in [(20, true), (21, false)] {
        let words = [5, 3, 1, 1, 1, 10, 4, 7, 0, 0, 0, 3, 0, 3, 15, 17, 20, last];
        let told = replay_block::<Sum>(Words { left: &words }, rt.alloc())?;
        assert_eq!(rt; told, same, "the sum {last}");
    }
    Ok(())
}

// Behind 5 the sample 4 comes into two places of 7.
#[test]
fn a_sample_is_replayed(rt: HostRuntime) -> Result<(), Fail> {
    for (place, same) in [(9, true), (7, false)] {
        let words = [5, 4, 2, 7, 0, 0, 0, 2, 0, 2, 9, place, 9];
        let told = replay_push::<Sum>(Words { left: &words }, rt.alloc())?;
        assert_eq!(rt; told, same, "a place of {place}");
    }
    Ok(())
}

// The samples 1, 3 and 5, raised by 100, come into two places.
#[test]
fn a_list_is_replayed(rt: HostRuntime) -> Result<(), Fail> {
    for (count, same) in [(2, true), (3, false)] {
        let words = [100, 3, 1, 2, 0, 2, 0, 0, 0, 0, count, 0, 2, 101, 103];
        let told = replay_linear::<Raised>(Words { left: &words }, rt.alloc())?;
        assert_eq!(rt; told, same, "a count of {count}");
    }
    Ok(())
}

// A state that names none of its own is zero where its opening was refused.
#[test]
fn a_refused_opening_is_zero(rt: HostRuntime) {
    for (total, same) in [(0, true), (5, false)] {
        let words = [u32::from(Refusal::State.number()), total];
        let told = same_opened::<Sum>(Words { left: &words }, Err(Refusal::State));
        assert_eq!(rt; told, same, "a sum of {total}");
    }
}
