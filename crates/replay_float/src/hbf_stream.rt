// The half-band stream as records have it.
use crate::cascade::Cascade;
use half_band::HbfStream;
use records::record::Words;
use records::reset::Reset;
use records::sample::Sampled;
use records::state::State;
use refusal::Refusal;

#[derive(Drop)]
pub(crate) struct Stream(HbfStream);

impl State for Stream {
    fn from_words(words: &mut Words<'_>) -> Stream {
        Stream(HbfStream {
            depth: words.long(),
            counts: words.longs(),
            delays: words.slice().array(),
            held: words.slice().array(),
        })
    }

    fn refused() -> Stream {
        Stream(HbfStream::fresh(0))
    }

    fn is_same(&self, answers: &mut Words<'_>, before: &Stream) -> bool {
        answers.same_long(self.0.depth)
            && answers.same_longs(&self.0.counts)
            && answers.same_places(&self.0.delays, &before.0.delays)
            && answers.same_places(&self.0.held, &before.0.held)
    }
}

impl Cascade for Stream {
    fn opened(depth: usize) -> Result<Stream, Refusal> {
        Ok(Stream(HbfStream::new(depth)?))
    }
}

impl Reset for Stream {
    fn reset(&mut self) -> Result<(), Refusal> {
        self.0.reset()
    }
}

impl Sampled for Stream {
    type Sample = f32;

    type Made = Option<f32>;

    fn process_sample(&mut self, sample: f32) -> Result<Option<f32>, Refusal> {
        self.0.process_sample(sample)
    }
}
