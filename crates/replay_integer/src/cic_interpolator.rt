// The interpolator as records have it.
use crate::cic::Cic;
use integer::CicInterpolator;
use records::record::Words;
use records::sample::Pushed;
use records::state::State;
use refusal::Refusal;

#[derive(Drop)]
pub(crate) struct Interpolator(CicInterpolator);

impl State for Interpolator {
    fn from_words(words: &mut Words<'_>) -> Interpolator {
        Interpolator(CicInterpolator {
            stages: words.long(),
            r: words.long(),
            comb_state: words.values(),
            integrator_state: words.values(),
        })
    }

    fn refused() -> Interpolator {
        Interpolator(CicInterpolator::fresh(0, 0))
    }

    fn is_same(&self, answers: &mut Words<'_>, _before: &Self) -> bool {
        let state = &self.0;
        answers.same_long(state.stages)
            && answers.same_long(state.r)
            && answers.same_values(&state.comb_state)
            && answers.same_values(&state.integrator_state)
    }
}

impl Cic for Interpolator {
    fn opened(stages: usize, r: usize) -> Result<Interpolator, Refusal> {
        Ok(Interpolator(CicInterpolator::new(stages, r)?))
    }

    fn gain(&self) -> Result<u64, Refusal> {
        self.0.gain()
    }

    fn gain_bits(&self) -> Result<u32, Refusal> {
        self.0.gain_bits()
    }
}

impl Pushed for Interpolator {
    type Sample = i32;

    fn push(&mut self, sample: i32, span: &mut [i32]) -> Result<usize, Refusal> {
        self.0.process_sample(sample, span)
    }
}
