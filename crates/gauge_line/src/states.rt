// The states as callers keep them: put together from the fields that were lent, and put back into them.
ghost use Rattle.std.specs.Prelude.{◌≡◌};
ghost use Rattle.integer.specs.CicDecimator.{decimator_of};
ghost use Rattle.integer.specs.CicInterpolator.{interpolator_of};
ghost use Rattle.nonrecursive.specs.NonrecursiveDecimator.{nonrecursive_of};
ghost use Rattle.q15.specs.FirDecimator.{fir_state};
ghost use Rattle.linear_phase.specs.LinearPhaseFir.{phase_of};
ghost use Rattle.gauge_line.specs.Crossing.{is_set, flag_of, kind_of};
ghost use Rattle.gauge_line.specs.inner.Numbers.{kind_number};
ghost use Rattle.gauge_line.specs.States.{exit, decimator_at, nonrecursive_at, interpolator_at, fir_at, stream_at};

use half_band::{DEC_CASCADE_DELAYS, HbfStream, MOST_DEPTH};
use integer::limits::MOST_STAGES;
use integer::{CicDecimator, CicInterpolator};
use linear_phase::{Kind, LINEAR_PHASE_DELAYS, LinearPhaseFir, MOST_LINEAR_PHASE_TAPS};
use nonrecursive::nonrecursive_decimator::MOST_NEIGHBOURS;
use nonrecursive::{NonrecursiveDecimator, Thinning};
use q15::{FirDecimator, MOST_TAPS};

pub(crate) fn decimator(
    stages: usize,
    r: usize,
    integrators: [i32; MOST_STAGES],
    combs: [i32; MOST_STAGES],
    sample_counter: usize,
) -> CicDecimator
    ensures { result ≡ decimator_of stages r integrators combs sample_counter }
{
    CicDecimator {
        stages,
        r,
        integrator_state: integrators,
        comb_state: combs,
        sample_counter,
    }
}

pub(crate) fn put_decimator(
    next: &CicDecimator,
    stages: &mut usize,
    r: &mut usize,
    integrators: &mut [i32; MOST_STAGES],
    combs: &mut [i32; MOST_STAGES],
    sample_counter: &mut usize,
)
    ensures { decimator_at exit stages r integrators combs sample_counter ≡ next.now }
{
    let next_integrators = next.integrator_state;
    let next_combs = next.comb_state;
    *stages = next.stages;
    *r = next.r;
    *integrators = next_integrators;
    *combs = next_combs;
    *sample_counter = next.sample_counter;
}

pub(crate) fn nonrecursive(
    stages: usize,
    r: usize,
    neighbours: [i32; MOST_NEIGHBOURS],
    place: usize,
) -> NonrecursiveDecimator
    ensures { result ≡ nonrecursive_of stages r neighbours place }
{
    NonrecursiveDecimator {
        stages,
        r,
        neighbours,
        place,
    }
}

pub(crate) fn put_nonrecursive(
    next: &NonrecursiveDecimator,
    stages: &mut usize,
    r: &mut usize,
    neighbours: &mut [i32; MOST_NEIGHBOURS],
    place: &mut usize,
)
    ensures { nonrecursive_at exit stages r neighbours place ≡ next.now }
{
    let next_neighbours = next.neighbours;
    *stages = next.stages;
    *r = next.r;
    *neighbours = next_neighbours;
    *place = next.place;
}

pub(crate) fn interpolator(
    stages: usize,
    r: usize,
    combs: [i32; MOST_STAGES],
    integrators: [i32; MOST_STAGES],
) -> CicInterpolator
    ensures { result ≡ interpolator_of stages r combs integrators }
{
    CicInterpolator {
        stages,
        r,
        comb_state: combs,
        integrator_state: integrators,
    }
}

pub(crate) fn put_interpolator(
    next: &CicInterpolator,
    stages: &mut usize,
    r: &mut usize,
    combs: &mut [i32; MOST_STAGES],
    integrators: &mut [i32; MOST_STAGES],
)
    ensures { interpolator_at exit stages r combs integrators ≡ next.now }
{
    let next_combs = next.comb_state;
    let next_integrators = next.integrator_state;
    *stages = next.stages;
    *r = next.r;
    *combs = next_combs;
    *integrators = next_integrators;
}

pub(crate) fn fir(
    taps: [i16; MOST_TAPS],
    tap_count: usize,
    factor: usize,
    delay: [i16; MOST_TAPS],
    wait: usize,
) -> FirDecimator
    ensures { result ≡ fir_state taps tap_count factor delay wait }
{
    FirDecimator {
        taps,
        tap_count,
        factor,
        delay,
        wait,
    }
}

pub(crate) fn put_fir(
    next: &FirDecimator,
    taps: &mut [i16; MOST_TAPS],
    tap_count: &mut usize,
    factor: &mut usize,
    delay: &mut [i16; MOST_TAPS],
    wait: &mut usize,
)
    ensures { fir_at exit taps tap_count factor delay wait ≡ next.now }
{
    let next_taps = next.taps;
    let next_delay = next.delay;
    *taps = next_taps;
    *tap_count = next.tap_count;
    *factor = next.factor;
    *delay = next_delay;
    *wait = next.wait;
}

// The depth and the delays of a cascade of either direction into the places that were lent for them.
pub(crate) fn put_cascade<const DELAYS: usize>(
    next_depth: usize,
    next_delays: &[f32; DELAYS],
    depth: &mut usize,
    delays: &mut [f32; DELAYS],
)
    ensures { (depth.new ≡ next_depth) × (delays.new ≡ next_delays.now) }
{
    *depth = next_depth;
    *delays = *next_delays;
}

pub(crate) fn put_stream(
    next: &HbfStream,
    depth: &mut usize,
    delays: &mut [f32; DEC_CASCADE_DELAYS],
    held: &mut [f32; MOST_DEPTH],
    counts: &mut [usize; MOST_DEPTH],
)
    ensures { stream_at exit depth delays held counts ≡ next.now }
{
    let next_delays = next.delays;
    let next_held = next.held;
    let next_counts = next.counts;
    *depth = next.depth;
    *delays = next_delays;
    *held = next_held;
    *counts = next_counts;
}

// A yes or a no crosses as a number: 0 is no, any other is yes.
pub(crate) fn is_set(n: usize) -> bool
    ensures { result ≡ is_set n }
{
    n != 0
}

// The number that is written for it.
pub(crate) fn flag(yes: bool) -> usize
    ensures { result ≡ flag_of yes }
{
    usize::from(yes)
}

// Which kind thins a line crosses as a number: 0 is the integrators, any other the neighbours. No `From` of `Thinning`: these numbers are C's, and no layer below has them.
pub(crate) fn kind(n: usize) -> Thinning
    ensures { result ≡ kind_of n }
{
    if is_set(n) {
        return Thinning::Neighbours;
    }
    Thinning::Integrators
}

// The number that is written for it.
pub(crate) fn kind_number(kind: Thinning) -> usize
    ensures { result ≡ kind_number kind }
{
    match kind {
        Thinning::Integrators => 0,
        Thinning::Neighbours => 1,
    }
}

pub(crate) fn phase(
    m: usize,
    kind: Kind,
    taps: [f32; MOST_LINEAR_PHASE_TAPS],
    delay: [f32; LINEAR_PHASE_DELAYS],
) -> LinearPhaseFir
    ensures { result ≡ phase_of m kind.odd kind.antisymmetric taps delay }
{
    LinearPhaseFir {
        m,
        odd: kind.odd,
        antisymmetric: kind.antisymmetric,
        taps,
        delay,
    }
}
