// The entries of a line, each written into a span that is as long as it is.
ghost use Rattle.std.specs.Prelude.{◌≡◌, ◌++◌, ◌+◌, ◌*◌, ◌≤◌, ◌<◌, length};
ghost use Rattle.q15.specs.FirDecimator.{most_taps};
ghost use Rattle.sheet.specs.Sheet.{bytes16};
ghost use Rattle.words.specs.Fields.{joined};
ghost use Rattle.parking.specs.Entries as E;
ghost use Rattle.parking.specs.Kept.{line_kept};
ghost use Rattle.parking.specs.Parked as P;
ghost use Rattle.parking.specs.inner.Told.{numbers_of, first_bytes, first_size, last_bytes, last_size};

use crate::fine_line::FineLine;
use crate::put::put_all;
use crate::settings::{ParkedSettings, half_band_bytes, halvings, window};
use nonrecursive::Thinning;
use sheet::fields::bytes16;
use sheet::lay;
use words::bits_of_f32;

// Numbers of 16 bits.
fn put_numbers(span: &mut [u8], numbers: &[usize])
    requires { length span.old ≡ 2 * length numbers.now }
    ensures { span.new ≡ joined bytes16 numbers.now }
{
    for (i, n) in numbers.iter().enumerate() {
        lay(span, 2 * i, &bytes16(*n));
    }
}

pub(crate) fn put_settings(span: &mut [u8], q: &ParkedSettings)
    requires { length span.old ≡ 24 }
    ensures { span.new ≡ P.settings_bytes (numbers_of q.now) }
{
    let numbers = [
        q.stages,
        q.r,
        q.taps,
        q.factor,
        q.depth,
        q.phases,
        q.phase_taps,
        q.straight,
    ];
    let (front, behind) = span.split_at_mut(16);
    let (step, cuts) = behind.split_at_mut(4);
    put_numbers(front, &numbers);
    step.copy_from_slice(&q.step.to_le_bytes());
    cuts.copy_from_slice(&q.cuts.to_le_bytes());
}

#[tactic(auto, unfolding(crate::specs::Entries::settings_in, crate::specs::Entries::cic_bytes))]
fn put_cic(span: &mut [u8], line: &FineLine<'_>)
    requires { length span.old ≡ 2 + 8 * (line_kept line.now.kept).cic.stages }
    ensures { span.new ≡ E.cic_bytes (line_kept line.now.kept).cic }
{
    let n = line.kept.numbers.settings.stages;
    let integrators = line.kept.integrators;
    let combs = line.kept.combs;
    let (counter, behind) = span.split_at_mut(2);
    let (front, back) = behind.split_at_mut(4 * n);
    counter.copy_from_slice(&bytes16(line.kept.numbers.clock.sample_counter));
    put_all(front, &integrators[..n]);
    put_all(back, &combs[..n]);
}

// The CIC entry, of a line of neighbours an empty one.
pub(crate) fn put_first(span: &mut [u8], line: &FineLine<'_>)
    requires { let l = line_kept line.now.kept in length span.old ≡ first_size l.thinning l.cic.stages }
    ensures { span.new ≡ first_bytes (line_kept line.now.kept) }
{
    match line.kept.numbers.settings.thinning {
        Thinning::Integrators => put_cic(span, line),
        Thinning::Neighbours => {}
    }
}

// The entries of FIR taps and FIR delay.
#[tactic(auto, unfolding(crate::specs::Entries::settings_in, crate::specs::Entries::tap_bytes, crate::specs::Entries::delay_bytes))]
pub(crate) fn put_fir(span: &mut [u8], line: &FineLine<'_>)
    requires { let f = (line_kept line.now.kept).fir in length span.old ≡ 2 * f.tap_count + (2 + 2 * f.tap_count) }
    ensures { let f = (line_kept line.now.kept).fir in span.new ≡ E.tap_bytes f ++ E.delay_bytes f }
{
    let n = line.kept.numbers.tap_count;
    let taps = line.kept.taps;
    let delay = line.kept.fir_delay;
    let (front, behind) = span.split_at_mut(2 * n);
    let (wait, back) = behind.split_at_mut(2);
    put_all(front, &taps[..n]);
    wait.copy_from_slice(&bytes16(line.kept.numbers.clock.wait));
    put_all(back, &delay[..n]);
}

// One of the half-band stages.
#[tactic(auto, unfolding(crate::specs::Entries::stage_bytes))]
fn put_stage(span: &mut [u8], stage: usize, line: &FineLine<'_>)
    requires { (stage < 5) × (length span.old ≡ 6 + 4 * E.window_of stage) }
    ensures { span.new ≡ E.stage_bytes (line_kept line.now.kept).half_band stage }
{
    let from = 96 * stage;
    let counts = line.kept.counts;
    let held = line.kept.held;
    let delays = line.kept.delays;
    let (count, behind) = span.split_at_mut(2);
    let (sample, back) = behind.split_at_mut(4);
    count.copy_from_slice(&bytes16(counts[stage]));
    sample.copy_from_slice(&bits_of_f32(held[stage]).to_le_bytes());
    put_all(back, &delays[from..from + window(stage)]);
}

// The half-band entry. By the stages' numbers, since by these go their places.
pub(crate) fn put_half_band(span: &mut [u8], line: &FineLine<'_>)
    requires { let s = (line_kept line.now.kept).half_band in length span.old ≡ P.half_band_bytes s.depth }
    ensures { let s = (line_kept line.now.kept).half_band in span.new ≡ E.stages_bytes s s.depth }
{
    for stage in 0..line.kept.numbers.settings.depth {
        put_stage(
            &mut span[half_band_bytes(stage)..half_band_bytes(stage + 1)],
            stage,
            line,
        );
    }
}

// The entries of the prototype and the resampler.
#[tactic(auto, unfolding(crate::specs::Entries::settings_in, crate::specs::Entries::prototype_bytes, crate::specs::Entries::resampler_bytes))]
pub(crate) fn put_resampler(span: &mut [u8], line: &FineLine<'_>)
    requires { let p = (line_kept line.now.kept).resampler in length span.old ≡ 4 * (p.phases * p.taps) + (4 + 4 * p.taps) }
    ensures { let p = (line_kept line.now.kept).resampler in span.new ≡ E.prototype_bytes p ++ E.resampler_bytes p }
{
    let s = line.kept.numbers.settings;
    let cells = s.phases * s.phase_taps;
    let prototype = line.kept.prototype;
    let delay = line.kept.delay;
    let (front, behind) = span.split_at_mut(4 * cells);
    let (mu, back) = behind.split_at_mut(4);
    put_all(front, &prototype[..cells]);
    mu.copy_from_slice(&bits_of_f32(line.kept.numbers.clock.mu).to_le_bytes());
    put_all(back, &delay[..s.phase_taps]);
}

// "its place and then N neighbours for each halving"
#[tactic(auto, unfolding(crate::specs::Entries::settings_in, crate::specs::Entries::neighbours_bytes, crate::specs::Parked::neighbour_count))]
fn put_neighbours(span: &mut [u8], line: &FineLine<'_>)
    requires { let d = (line_kept line.now.kept).cic in length span.old ≡ 2 + 4 * P.neighbour_count d.stages d.r }
    ensures { let l = line_kept line.now.kept in span.new ≡ E.neighbours_bytes l.cic l.neighbours }
{
    let s = line.kept.numbers.settings;
    let n = s.stages * halvings(s.r);
    let neighbours = line.kept.neighbours;
    let (place, behind) = span.split_at_mut(2);
    place.copy_from_slice(&bytes16(line.kept.numbers.clock.sample_counter));
    put_all(behind, &neighbours[..n]);
}

// The entry that a line of neighbours has more.
pub(crate) fn put_last(span: &mut [u8], line: &FineLine<'_>)
    requires { let l = line_kept line.now.kept in length span.old ≡ last_size l.thinning l.cic.stages l.cic.r }
    ensures { span.new ≡ last_bytes (line_kept line.now.kept) }
{
    match line.kept.numbers.settings.thinning {
        Thinning::Integrators => {}
        Thinning::Neighbours => put_neighbours(span, line),
    }
}
