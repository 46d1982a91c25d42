// The Q15 blocks and the cut. Each takes the words behind its code: its inputs, then the answers.
use q15::{FirBlock, cut_q15, resample_linear_q15};
use records::lent::room;
use records::linear::Linear;
use records::record::Words;
use records::span::Span;
use refusal::Refusal;

// A block of either kind: samples, taps, a factor and the span.
pub(crate) fn fir<F>(mut words: Words<'_>, block: F) -> bool
where
    F: FnOnce(&[i16], &[i16], usize, &mut [i16]) -> Result<FirBlock, Refusal>,
    requires { F.IsAlwaysCallable block }
{
    let factor = words.long();
    let mut read = room::<i16>();
    let mut read_taps = room::<i16>();
    let mut written = room::<i16>();
    let samples = words.slice().put(&mut read);
    let taps = words.slice().put(&mut read_taps);
    let span = Span::of(words.slice(), &mut written);
    let made = block(samples, taps, factor, span.places);
    let counts = made.map(|block| (block.written, block.cuts));
    words.same_answer(counts) && span.is_same(&mut words) && words.is_empty()
}

pub(crate) struct LinearQ15;

impl Linear for LinearQ15 {
    type Sample = i16;

    type Ratio = i32;

    fn resample(samples: &[i16], span: &mut [i16], ratio: i32) -> Result<usize, Refusal> {
        resample_linear_q15(samples, span, ratio)
    }
}

pub(crate) fn cut(mut words: Words<'_>) -> bool {
    let sum = (words.long() as u64).cast_signed();
    let made = cut_q15(sum);
    words.same(made.value.0) && words.same_flag(made.cut) && words.is_empty()
}
