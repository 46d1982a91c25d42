// What has no state: linear resampling, Q15 to f32, the response lengths, the half-band table. Each takes the words behind its code: its inputs, then the
// answers.
use float::{q15_to_f32, resample_linear_f32};
use half_band::hbf_tap_table;
use q15::Q15;
use records::linear::Linear;
use records::record::Words;
use refusal::Refusal;

pub(crate) struct LinearF32;

impl Linear for LinearF32 {
    type Sample = f32;

    type Ratio = f32;

    fn resample(samples: &[f32], span: &mut [f32], ratio: f32) -> Result<usize, Refusal> {
        resample_linear_f32(samples, span, ratio)
    }
}

pub(crate) fn to_f32(mut words: Words<'_>) -> bool {
    let value = Q15(words.value());
    words.same(q15_to_f32(value)) && words.is_empty()
}

pub(crate) fn response_length<F>(mut words: Words<'_>, length: F) -> bool
where
    F: FnOnce(usize) -> Result<usize, Refusal>,
    requires { F.IsAlwaysCallable length }
{
    let depth = words.long();
    words.same_answer(length(depth)) && words.is_empty()
}

// The table's 45 taps, as a span that was zeros.
pub(crate) fn tap_table(mut words: Words<'_>) -> bool {
    let table = hbf_tap_table();
    words.same_places(&table, &[0.0; 45]) && words.is_empty()
}
