// The resampler as records have it, and its openings.
use float::PolyphaseResampF32;
use float::settings::{MOST_CELLS, MOST_PHASE_TAPS, Setting};
use records::block::Block;
use records::lent::room;
use records::record::Words;
use records::reset::Reset;
use records::sample::Pushed;
use records::state::{State, same_opened};
use refusal::{Moved, Refusal};

#[derive(Drop)]
pub(crate) struct Resampler(PolyphaseResampF32);

impl State for Resampler {
    fn from_words(words: &mut Words<'_>) -> Resampler {
        Resampler(PolyphaseResampF32 {
            phases: words.long(),
            taps: words.long(),
            straight: words.long() != 0,
            mu: words.value(),
            step: words.value(),
            delay: words.slice().array(),
            prototype: words.slice().array(),
        })
    }

    // As the openings for C clear what they are lent: nothing of it is zero before.
    fn refused() -> Resampler {
        let mut mu = 1.0;
        let mut delay = [1.0; MOST_PHASE_TAPS];
        let mut prototype = [1.0; MOST_CELLS];
        let setting = Setting::clear(&mut mu, &mut delay, &mut prototype);
        Resampler(PolyphaseResampF32 {
            phases: setting.phases,
            taps: setting.phase_taps,
            straight: setting.straight,
            mu,
            step: setting.step,
            delay,
            prototype,
        })
    }

    fn is_same(&self, answers: &mut Words<'_>, before: &Resampler) -> bool {
        let state = &self.0;
        answers.same_long(state.phases)
            && answers.same_long(state.taps)
            && answers.same_long(usize::from(state.straight))
            && answers.same(state.mu)
            && answers.same(state.step)
            && answers.same_places(&state.delay, &before.0.delay)
            && answers.same_places(&state.prototype, &before.0.prototype)
    }
}

impl Reset for Resampler {
    fn reset(&mut self) -> Result<(), Refusal> {
        self.0.reset()
    }
}

impl Block for Resampler {
    type Sample = f32;

    type Counts = Moved;

    fn process(&mut self, samples: &[f32], span: &mut [f32]) -> Result<Moved, Refusal> {
        self.0.process_block(samples, span)
    }
}

impl Pushed for Resampler {
    type Sample = f32;

    fn push(&mut self, sample: f32, span: &mut [f32]) -> Result<usize, Refusal> {
        self.0.push(sample, span)
    }
}

// An opening of either kind: phases, taps, the prototype and the step.
pub(crate) fn new<F>(mut words: Words<'_>, opening: F) -> bool
where
    F: FnOnce(usize, usize, &[f32], f32) -> Result<PolyphaseResampF32, Refusal>,
    requires { F.IsAlwaysCallable opening }
{
    let phases = words.long();
    let taps = words.long();
    let step = words.value();
    let mut read = room::<f32>();
    let prototype = words.slice().put(&mut read);
    let opened = opening(phases, taps, prototype, step);
    same_opened(words, opened.map(Resampler))
}
