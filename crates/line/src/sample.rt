// A sample on its way through sections 1 to 5, the clock and the arrays lent.
ghost use Rattle.std.specs.Prelude.{◌≡◌, List, Float};
ghost use Rattle.theory.specs.Tally.{held_sum};
ghost use Rattle.nonrecursive.specs.EitherKind as E;
ghost use Rattle.q15.specs.FirDecimator.{fir_sum_out};
ghost use Rattle.half_band.specs.HbfStream.{stream_of, hbf_stream};
ghost use Rattle.chain.specs.Chain as C;
ghost use Rattle.line.specs.Line as L;
ghost use Rattle.chain.specs.Cuts.{most_cuts};
ghost use Rattle.chain.specs.inner.Parts as P;
ghost use Rattle.chain.specs.inner.Lending as A;
ghost use Rattle.chain.specs.Same.{Same};
ghost use Rattle.chain.specs.inner.Lending.{ThinnerStays};
ghost use Rattle.line.specs.inner.Together as T;

use crate::validity::Checked;
use chain::arrays::Arrays;
use chain::clock::{Clock, held_sum};
use chain::fixed::Fixed;
use float::due::shift_in;
use float::q15_to_f32;
use float::settings::MOST_PHASE_TAPS;
use half_band::{DEC_CASCADE_DELAYS, MOST_DEPTH, hbf_stream_at};
use integer::gain::scaled;
use nonrecursive::thinning::thin_at;
use q15::{Q15, cut_q15, fir_at};

// A level into the resampler, or past it where it is off.
#[tactic(auto, unfolding(float::specs::PolyphaseResamp::in_line, float::specs::PolyphaseResamp::is_on, float::specs::PolyphaseResamp::consumed))]
fn resampler_in(
    f: Fixed,
    mu: &mut f32,
    delay: &mut [f32; MOST_PHASE_TAPS],
    level: f32,
) -> Option<f32>
    ensures { (h : List Float) →
        T.Takes C.from5 (P.resampler_of f mu.old delay.old h) level result (P.resampler_of f mu.new delay.new h) }
{
    if f.settings.phases == 0 {
        return Some(level);
    }
    shift_in(delay, f.settings.phase_taps, level);
    *mu -= 1.0;
    None
}

// A level into the half-band stages, or past them where there are none.
#[tactic(auto, unfolding(half_band::specs::HbfStream::hbf_stream, half_band::specs::HbfStream::stream, half_band::specs::HbfStream::through))]
fn stages_in(
    depth: usize,
    delays: &mut [f32; DEC_CASCADE_DELAYS],
    held: &mut [f32; MOST_DEPTH],
    counts: &mut [usize; MOST_DEPTH],
    level: f32,
) -> Option<f32>
    ensures out { result ≡ hbf_stream.out (stream_of depth delays.old held.old counts.old) level }
    ensures next { stream_of depth delays.new held.new counts.new
        ≡ hbf_stream.next (stream_of depth delays.old held.old counts.old) level }
{
    if depth == 0 {
        Some(level)
    } else {
        hbf_stream_at(depth, delays, held, counts, level)
    }
}

// A level into the half-band stages, and what they make into the resampler. This and the two below are inlined wherever a sample is taken: as calls they have settings, clock
// and references put into memory, a third of a sample's instructions on a Cortex-M4F where a FIR makes few of it.
#[inline(always)]
fn half_band_in(f: Fixed, mu: &mut f32, lent: &mut Arrays<'_>, level: f32) -> Option<f32>
    ensures same { Same lent.old lent.new }
    ensures stays { ThinnerStays lent.old lent.new × (lent.new.fir_delay.now ≡ lent.old.fir_delay.now) }
    ensures takes { T.Takes C.from4 (A.half_band_in f lent.old, A.resampler_in f mu.old lent.old) level result
        (A.half_band_in f lent.new, A.resampler_in f mu.new lent.new) }
{
    let made = stages_in(f.settings.depth, lent.delays, lent.held, lent.counts, level);
    let y = made?;
    resampler_in(f, mu, lent.delay, y)
}

// A value into the FIR, and what it makes, counted where it was cut, into the half-band stages.
#[inline(always)]
fn fir_in(f: Fixed, clock: &mut Clock, lent: &mut Arrays<'_>, value: Q15) -> Option<f32>
    ensures same { Same lent.old lent.new }
    ensures stays { ThinnerStays lent.old lent.new }
    ensures takes { T.Takes C.from3 (A.from_fir_in f clock.old lent.old) value.0 result (A.from_fir_in f clock.new lent.new) }
    ensures cuts { let sum = fir_sum_out (A.fir_in f clock.old.wait lent.old) value.0 in
        clock.new.cuts ≡ held_sum most_cuts clock.old.cuts (L.sum_cut sum) }
    ensures counter { clock.new.sample_counter ≡ clock.old.sample_counter }
{
    let settings = f.settings.fir(f.tap_count);
    let made = fir_at(lent.fir_delay, lent.taps, settings, &mut clock.wait, value);
    let y = made?;
    clock.cuts = held_sum(clock.cuts, u32::from(y.cut));
    let level = q15_to_f32(y.value);
    half_band_in(f, &mut clock.mu, lent, level)
}

// A sample into the decimator of the line's kind, and what it makes, scaled and cut, into the FIR. The kind as a bool beside the settings, since a loop of a feed has it
// as a constant: of an enum in a struct that is lent the compiler does not see that it is one.
#[inline(always)]
pub(crate) fn sample_in(
    by_neighbours: bool,
    own: Checked,
    clock: &mut Clock,
    lent: &mut Arrays<'_>,
    x: i32,
) -> Option<f32>
    requires { E.kind_of by_neighbours ≡ own.fixed.settings.thinning }
    ensures same { Same lent.old lent.new }
    ensures takes { T.Takes L.line (T.line_held own.fixed clock.old lent.old) x result (T.line_held own.fixed clock.new lent.new) }
{
    let f = own.fixed;
    let s = f.settings;
    let made = thin_at(
        by_neighbours,
        s.stages,
        s.r,
        &mut clock.sample_counter,
        lent.integrators,
        lent.combs,
        lent.neighbours,
        x,
    );
    let v = made?;
    let first = cut_q15(i64::from(scaled(v, f.bits)));
    clock.cuts = held_sum(clock.cuts, u32::from(first.cut));
    fir_in(f, clock, lent, first.value)
}
