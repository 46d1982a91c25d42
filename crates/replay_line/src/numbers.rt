// The numbers of a line that row 15 looks at, and its count of cut values.
use line::Line;
use records::record::Words;

// Gives the line other numbers.
pub(crate) fn read_numbers(words: &mut Words<'_>, line: &mut Line) {
    line.cic.stages = words.long();
    line.cic.r = words.long();
    line.cic.sample_counter = words.long();
    line.fir.tap_count = words.long();
    line.fir.factor = words.long();
    line.fir.wait = words.long();
    line.half_band.depth = words.long();
    line.half_band.counts = words.longs();
    line.resampler.phases = words.long();
    line.resampler.taps = words.long();
    line.resampler.step = words.value();
    line.resampler.mu = words.value();
    line.cuts = words.word();
}

// Whether the line has these numbers.
pub(crate) fn same_numbers(words: &mut Words<'_>, line: &Line) -> bool {
    same_sums(words, line) && same_floats(words, line) && words.same(line.cuts)
}

// The numbers of the sections before the floats.
fn same_sums(words: &mut Words<'_>, line: &Line) -> bool {
    words.same_long(line.cic.stages)
        && words.same_long(line.cic.r)
        && words.same_long(line.cic.sample_counter)
        && words.same_long(line.fir.tap_count)
        && words.same_long(line.fir.factor)
        && words.same_long(line.fir.wait)
}

fn same_floats(words: &mut Words<'_>, line: &Line) -> bool {
    words.same_long(line.half_band.depth)
        && words.same_longs(&line.half_band.counts)
        && words.same_long(line.resampler.phases)
        && words.same_long(line.resampler.taps)
        && words.same(line.resampler.step)
        && words.same(line.resampler.mu)
}
