// The gauge line: the fields of its decimator, its FIR, its half-band stages and its resampler, in this order, and its count of cut values; then which kind thins, and the neighbours.
ghost use Rattle.std.specs.Prelude.{◌≡◌, true, ltb, length, drop};
ghost use Rattle.theory.specs.Feeds.{head_of};
ghost use Rattle.refusal.specs.declared.Moved.{Moved};
ghost use Rattle.line.specs.Outputs.{Opening};
ghost use Rattle.line.specs.Openings as B;
ghost use Rattle.line.specs.Line as L;
ghost use Rattle.line.specs.Lent as N;
ghost use Rattle.line.specs.Demand3.{Demand3};
ghost use Rattle.chain.specs.declared.settings.Settings.{Settings};
ghost use Rattle.gauge_line.specs.Crossing.{crossed_step, is_set, kind_of};
ghost use Rattle.gauge_line.specs.States.{entry, exit, IsFlag, line_at};

use crate::answers::{number, step_moves};
use crate::lines::{numbers, put_clock, put_numbers};
use crate::states::{is_set, kind};
use float::settings::{MOST_CELLS, MOST_PHASE_TAPS};
use half_band::{DEC_CASCADE_DELAYS, MOST_DEPTH};
use integer::limits::MOST_STAGES;
use line::{
    Arrays, Clock, LineNumbers, Places, Settings, feed_lent, open_lent, reset_lent, step_lent,
};
use nonrecursive::nonrecursive_decimator::MOST_NEIGHBOURS;
use q15::MOST_TAPS;
use refusal::NONE_MOVED;

// The number in the name is that of the line's layout: a program that was compiled with a header of another layout does not link.
#[unsafe(no_mangle)]
pub extern "C" fn gauge_raw_line_open_3(
    wanted_stages: usize,
    wanted_r: usize,
    wanted_factor: usize,
    wanted_depth: usize,
    wanted_phases: usize,
    wanted_phase_taps: usize,
    wanted_straight: usize,
    wanted_step: f32,
    wanted_thinning: usize,
    wanted_taps: &[i16],
    wanted_prototype: &[f32],
    stages: &mut usize,
    r: &mut usize,
    integrators: &mut [i32; MOST_STAGES],
    combs: &mut [i32; MOST_STAGES],
    sample_counter: &mut usize,
    taps: &mut [i16; MOST_TAPS],
    tap_count: &mut usize,
    factor: &mut usize,
    fir_delay: &mut [i16; MOST_TAPS],
    wait: &mut usize,
    depth: &mut usize,
    delays: &mut [f32; DEC_CASCADE_DELAYS],
    held: &mut [f32; MOST_DEPTH],
    counts: &mut [usize; MOST_DEPTH],
    phases: &mut usize,
    phase_taps: &mut usize,
    straight: &mut usize,
    mu: &mut f32,
    step: &mut f32,
    delay: &mut [f32; MOST_PHASE_TAPS],
    prototype: &mut [f32; MOST_CELLS],
    cuts: &mut u32,
    thinning: &mut usize,
    neighbours: &mut [i32; MOST_NEIGHBOURS],
) -> usize
    ensures setting { IsFlag straight.new × IsFlag thinning.new }
    ensures answer { (
        let settings : Settings = record {
          stages = wanted_stages;
          r = wanted_r;
          factor = wanted_factor;
          depth = wanted_depth;
          phases = wanted_phases;
          phase_taps = wanted_phase_taps;
          straight = is_set wanted_straight;
          step = wanted_step;
          thinning = kind_of wanted_thinning;
        } in
        let wanted : Opening = record { settings = settings; taps = wanted_taps.now; prototype = wanted_prototype.now } in
        let after = line_at exit stages r integrators combs sample_counter taps tap_count factor fir_delay wait
        depth delays held counts phases phase_taps straight mu step delay prototype cuts thinning neighbours in
        record { number = result; state = after } ≡ B.opened wanted) }
{
    let settings = Settings {
        stages: wanted_stages,
        r: wanted_r,
        factor: wanted_factor,
        depth: wanted_depth,
        phases: wanted_phases,
        phase_taps: wanted_phase_taps,
        straight: is_set(wanted_straight),
        step: wanted_step,
        thinning: kind(wanted_thinning),
    };
    // The opening writes over the count of taps and the clock.
    let mut n = LineNumbers {
        settings,
        tap_count: 0,
        clock: Clock::default(),
    };
    // Here and below the arrays by the names that they are lent under: a function that puts them together would be called with the same ten.
    let mut lent = Places {
        integrators,
        combs,
        neighbours,
        taps,
        fir_delay,
        delays,
        held,
        counts,
        delay,
        prototype,
    };
    let answer = open_lent(settings, wanted_taps, wanted_prototype, &mut n, &mut lent);
    put_numbers(
        n,
        stages,
        r,
        sample_counter,
        tap_count,
        factor,
        wait,
        depth,
        phases,
        phase_taps,
        straight,
        mu,
        step,
        cuts,
        thinning,
    );
    number(&answer)
}

#[unsafe(no_mangle)]
pub extern "C" fn gauge_raw_line_reset(
    stages: &mut usize,
    r: &mut usize,
    integrators: &mut [i32; MOST_STAGES],
    combs: &mut [i32; MOST_STAGES],
    sample_counter: &mut usize,
    taps: &mut [i16; MOST_TAPS],
    tap_count: &mut usize,
    factor: &mut usize,
    fir_delay: &mut [i16; MOST_TAPS],
    wait: &mut usize,
    depth: &mut usize,
    delays: &mut [f32; DEC_CASCADE_DELAYS],
    held: &mut [f32; MOST_DEPTH],
    counts: &mut [usize; MOST_DEPTH],
    phases: &mut usize,
    phase_taps: &mut usize,
    straight: &mut usize,
    mu: &mut f32,
    step: &mut f32,
    delay: &mut [f32; MOST_PHASE_TAPS],
    prototype: &mut [f32; MOST_CELLS],
    cuts: &mut u32,
    thinning: &mut usize,
    neighbours: &mut [i32; MOST_NEIGHBOURS],
) -> usize
    ensures setting { IsFlag straight.new × IsFlag thinning.new }
    ensures answer { let before = line_at entry stages r integrators combs sample_counter taps tap_count factor fir_delay wait
        depth delays held counts phases phase_taps straight mu step delay prototype cuts thinning neighbours in
        let after = line_at exit stages r integrators combs sample_counter taps tap_count factor fir_delay wait
        depth delays held counts phases phase_taps straight mu step delay prototype cuts thinning neighbours in
        record { number = result; state = after } ≡ B.reset before }
    ensures accepted { let before = line_at entry stages r integrators combs sample_counter taps tap_count factor fir_delay wait
        depth delays held counts phases phase_taps straight mu step delay prototype cuts thinning neighbours in
        B.valid before ≡ true → result ≡ 0 }
{
    let mut n = numbers(
        *stages,
        *r,
        *sample_counter,
        *tap_count,
        *factor,
        *wait,
        *depth,
        *phases,
        *phase_taps,
        *straight,
        *mu,
        *step,
        *cuts,
        *thinning,
    );
    let mut lent = Places {
        integrators,
        combs,
        neighbours,
        taps,
        fir_delay,
        delays,
        held,
        counts,
        delay,
        prototype,
    };
    let answer = reset_lent(&mut n, &mut lent);
    put_numbers(
        n,
        stages,
        r,
        sample_counter,
        tap_count,
        factor,
        wait,
        depth,
        phases,
        phase_taps,
        straight,
        mu,
        step,
        cuts,
        thinning,
    );
    number(&answer)
}

// One step, a place of the span left where `places` is above 0, with the sample at `at` of those lent as the next, if there is one.
#[unsafe(no_mangle)]
pub extern "C" fn gauge_raw_line_step(
    stages: &mut usize,
    r: &mut usize,
    integrators: &mut [i32; MOST_STAGES],
    combs: &mut [i32; MOST_STAGES],
    sample_counter: &mut usize,
    taps: &mut [i16; MOST_TAPS],
    tap_count: &mut usize,
    factor: &mut usize,
    fir_delay: &mut [i16; MOST_TAPS],
    wait: &mut usize,
    depth: &mut usize,
    delays: &mut [f32; DEC_CASCADE_DELAYS],
    held: &mut [f32; MOST_DEPTH],
    counts: &mut [usize; MOST_DEPTH],
    phases: &mut usize,
    phase_taps: &mut usize,
    straight: &mut usize,
    mu: &mut f32,
    step: &mut f32,
    delay: &mut [f32; MOST_PHASE_TAPS],
    prototype: &mut [f32; MOST_CELLS],
    cuts: &mut u32,
    thinning: &mut usize,
    neighbours: &mut [i32; MOST_NEIGHBOURS],
    samples: &[i32],
    at: usize,
    places: usize,
    taken: &mut usize,
    written: &mut usize,
    value: &mut f32,
) -> usize
    ensures setting { IsFlag straight.new × IsFlag thinning.new }
    ensures answer { let before = line_at entry stages r integrators combs sample_counter taps tap_count factor fir_delay wait
        depth delays held counts phases phase_taps straight mu step delay prototype cuts thinning neighbours in
        let after = line_at exit stages r integrators combs sample_counter taps tap_count factor fir_delay wait
        depth delays held counts phases phase_taps straight mu step delay prototype cuts thinning neighbours in
        record { number = result; value = (taken.new, (written.new, value.new)); state = after }
        ≡ crossed_step (L.step_outcome before (ltb 0 places) (head_of (drop at samples.now))) }
{
    let mut n = numbers(
        *stages,
        *r,
        *sample_counter,
        *tap_count,
        *factor,
        *wait,
        *depth,
        *phases,
        *phase_taps,
        *straight,
        *mu,
        *step,
        *cuts,
        *thinning,
    );
    let mut lent = Arrays {
        integrators,
        combs,
        neighbours,
        taps,
        fir_delay,
        delays,
        held,
        counts,
        delay,
        prototype,
    };
    let done = step_lent(&mut n, &mut lent, samples, at, 0 < places);
    put_clock(n, sample_counter, wait, straight, mu, cuts, thinning);
    let moves = step_moves(done);
    *taken = moves.0;
    *written = moves.1;
    *value = moves.2;
    number(&done)
}

// Steps until stopped. The clause `demand3` is the whole claim over every list of feeds.
#[unsafe(no_mangle)]
pub extern "C" fn gauge_raw_line_feed(
    stages: &mut usize,
    r: &mut usize,
    integrators: &mut [i32; MOST_STAGES],
    combs: &mut [i32; MOST_STAGES],
    sample_counter: &mut usize,
    taps: &mut [i16; MOST_TAPS],
    tap_count: &mut usize,
    factor: &mut usize,
    fir_delay: &mut [i16; MOST_TAPS],
    wait: &mut usize,
    depth: &mut usize,
    delays: &mut [f32; DEC_CASCADE_DELAYS],
    held: &mut [f32; MOST_DEPTH],
    counts: &mut [usize; MOST_DEPTH],
    phases: &mut usize,
    phase_taps: &mut usize,
    straight: &mut usize,
    mu: &mut f32,
    step: &mut f32,
    delay: &mut [f32; MOST_PHASE_TAPS],
    prototype: &mut [f32; MOST_CELLS],
    cuts: &mut u32,
    thinning: &mut usize,
    neighbours: &mut [i32; MOST_NEIGHBOURS],
    samples: &[i32],
    out: &mut [f32],
    taken: &mut usize,
    written: &mut usize,
) -> usize
    ensures setting { IsFlag straight.new × IsFlag thinning.new }
    ensures answer { (
        let before = line_at entry stages r integrators combs sample_counter taps tap_count factor fir_delay wait
        depth delays held counts phases phase_taps straight mu step delay prototype cuts thinning neighbours in
        let after = line_at exit stages r integrators combs sample_counter taps tap_count factor fir_delay wait
        depth delays held counts phases phase_taps straight mu step delay prototype cuts thinning neighbours in
        let moved : Moved = record { taken = taken.exit.now; written = written.new } in
        record { number = result; value = moved; state = after } ≡ L.feed_outcome before samples.now (length out.old)) }
    ensures span { let before = line_at entry stages r integrators combs sample_counter taps tap_count factor fir_delay wait
        depth delays held counts phases phase_taps straight mu step delay prototype cuts thinning neighbours in
        out.new ≡ L.feed_span before samples.now out.old }
    ensures demand3 { (
        let before = line_at entry stages r integrators combs sample_counter taps tap_count factor fir_delay wait
        depth delays held counts phases phase_taps straight mu step delay prototype cuts thinning neighbours in
        let after = line_at exit stages r integrators combs sample_counter taps tap_count factor fir_delay wait
        depth delays held counts phases phase_taps straight mu step delay prototype cuts thinning neighbours in
        let moved : Moved = record { taken = taken.exit.now; written = written.new } in
        Demand3 before samples.now out.old out.new (record { number = result; value = moved; state = after })) }
{
    let mut n = numbers(
        *stages,
        *r,
        *sample_counter,
        *tap_count,
        *factor,
        *wait,
        *depth,
        *phases,
        *phase_taps,
        *straight,
        *mu,
        *step,
        *cuts,
        *thinning,
    );
    let mut lent = Arrays {
        integrators,
        combs,
        neighbours,
        taps,
        fir_delay,
        delays,
        held,
        counts,
        delay,
        prototype,
    };
    let done = feed_lent(&mut n, &mut lent, samples, out);
    put_clock(n, sample_counter, wait, straight, mu, cuts, thinning);
    let moved = done.unwrap_or(NONE_MOVED);
    *taken = moved.taken;
    *written = moved.written;
    number(&done)
}
