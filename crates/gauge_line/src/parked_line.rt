// A line parked as a tap sheet, and taken up again. A line that is parked is not changed: its numbers cross by value, its arrays are only read.
ghost use Rattle.std.specs.Prelude.{◌≡◌, length, take};
ghost use Rattle.line.specs.Line as L;
ghost use Rattle.parking.specs.Older.{ForOlder, StillTaken};
ghost use Rattle.parking.specs.Parked as P;
ghost use Rattle.parking.specs.Parking as K;
ghost use Rattle.taking_up.specs.AsParked.{AsParked};
ghost use Rattle.taking_up.specs.TakenBack.{TakenBack};
ghost use Rattle.gauge_line.specs.States.{exit, IsFlag, line_at, line_by};

use crate::answers::number;
use crate::lines::{numbers, put_numbers};
use float::settings::{MOST_CELLS, MOST_PHASE_TAPS};
use half_band::{DEC_CASCADE_DELAYS, MOST_DEPTH};
use integer::limits::MOST_STAGES;
use line::{LineNumbers, Places};
use nonrecursive::nonrecursive_decimator::MOST_NEIGHBOURS;
use parking::{KeptLine, park_kept, parked_len_kept};
use q15::MOST_TAPS;
use taking_up::take_up_lent;

// How many bytes the line's sheet has, so that a span may be made for it.
#[unsafe(no_mangle)]
pub extern "C" fn gauge_raw_line_parked_len(
    stages: usize,
    r: usize,
    integrators: &[i32; MOST_STAGES],
    combs: &[i32; MOST_STAGES],
    sample_counter: usize,
    taps: &[i16; MOST_TAPS],
    tap_count: usize,
    factor: usize,
    fir_delay: &[i16; MOST_TAPS],
    wait: usize,
    depth: usize,
    delays: &[f32; DEC_CASCADE_DELAYS],
    held: &[f32; MOST_DEPTH],
    counts: &[usize; MOST_DEPTH],
    phases: usize,
    phase_taps: usize,
    straight: usize,
    mu: f32,
    step: f32,
    delay: &[f32; MOST_PHASE_TAPS],
    prototype: &[f32; MOST_CELLS],
    cuts: u32,
    thinning: usize,
    neighbours: &[i32; MOST_NEIGHBOURS],
    bytes: &mut usize,
) -> usize
    ensures answer { let line = line_by stages r integrators.now combs.now sample_counter taps.now tap_count factor fir_delay.now wait
        depth delays.now held.now counts.now
        phases phase_taps straight mu step delay.now prototype.now cuts thinning neighbours.now in
        record { number = result; value = bytes.new } ≡ K.length_answer P.panel line }
{
    let k = KeptLine {
        numbers: numbers(
            stages,
            r,
            sample_counter,
            tap_count,
            factor,
            wait,
            depth,
            phases,
            phase_taps,
            straight,
            mu,
            step,
            cuts,
            thinning,
        ),
        integrators,
        combs,
        neighbours,
        taps,
        fir_delay,
        delays,
        held,
        counts,
        delay,
        prototype,
    };
    let answer = parked_len_kept(&k);
    *bytes = answer.unwrap_or(0);
    number(&answer)
}

// Writes the line as a tap sheet at the front of a span. The clause `older`: to the bytes of a panel before request 7, or to some that it answers with 15.
#[unsafe(no_mangle)]
pub extern "C" fn gauge_raw_line_park(
    stages: usize,
    r: usize,
    integrators: &[i32; MOST_STAGES],
    combs: &[i32; MOST_STAGES],
    sample_counter: usize,
    taps: &[i16; MOST_TAPS],
    tap_count: usize,
    factor: usize,
    fir_delay: &[i16; MOST_TAPS],
    wait: usize,
    depth: usize,
    delays: &[f32; DEC_CASCADE_DELAYS],
    held: &[f32; MOST_DEPTH],
    counts: &[usize; MOST_DEPTH],
    phases: usize,
    phase_taps: usize,
    straight: usize,
    mu: f32,
    step: f32,
    delay: &[f32; MOST_PHASE_TAPS],
    prototype: &[f32; MOST_CELLS],
    cuts: u32,
    thinning: usize,
    neighbours: &[i32; MOST_NEIGHBOURS],
    span: &mut [u8],
    written: &mut usize,
) -> usize
    ensures answer { let line = line_by stages r integrators.now combs.now sample_counter taps.now tap_count factor fir_delay.now wait
        depth delays.now held.now counts.now
        phases phase_taps straight mu step delay.now prototype.now cuts thinning neighbours.now in
        record { number = result; value = written.new } ≡ K.park_answer P.panel line (length span.old) }
    ensures span { let line = line_by stages r integrators.now combs.now sample_counter taps.now tap_count factor fir_delay.now wait
        depth delays.now held.now counts.now
        phases phase_taps straight mu step delay.now prototype.now cuts thinning neighbours.now in
        span.new ≡ K.park_span P.panel line span.old }
    ensures older { let line = line_by stages r integrators.now combs.now sample_counter taps.now tap_count factor fir_delay.now wait
        depth delays.now held.now counts.now
        phases phase_taps straight mu step delay.now prototype.now cuts thinning neighbours.now in
        result ≡ 0 → ForOlder line (take written.new span.new) }
{
    let k = KeptLine {
        numbers: numbers(
            stages,
            r,
            sample_counter,
            tap_count,
            factor,
            wait,
            depth,
            phases,
            phase_taps,
            straight,
            mu,
            step,
            cuts,
            thinning,
        ),
        integrators,
        combs,
        neighbours,
        taps,
        fir_delay,
        delays,
        held,
        counts,
        delay,
        prototype,
    };
    let answer = park_kept(&k, span);
    *written = answer.unwrap_or(0);
    number(&answer)
}

// The line of a parked sheet. The clause `back`: of what parking left in front of a span, after any feeds and parkings, the line never parked. The clause `parked`: what
// is taken up parks to the entries that it was taken from. The clause `earlier`: what a panel before request 7 takes up is taken up, as the same line. The number in the
// name is that of the line's layout.
#[unsafe(no_mangle)]
pub extern "C" fn gauge_raw_line_take_up_3(
    bytes: &[u8],
    stages: &mut usize,
    r: &mut usize,
    integrators: &mut [i32; MOST_STAGES],
    combs: &mut [i32; MOST_STAGES],
    sample_counter: &mut usize,
    taps: &mut [i16; MOST_TAPS],
    tap_count: &mut usize,
    factor: &mut usize,
    fir_delay: &mut [i16; MOST_TAPS],
    wait: &mut usize,
    depth: &mut usize,
    delays: &mut [f32; DEC_CASCADE_DELAYS],
    held: &mut [f32; MOST_DEPTH],
    counts: &mut [usize; MOST_DEPTH],
    phases: &mut usize,
    phase_taps: &mut usize,
    straight: &mut usize,
    mu: &mut f32,
    step: &mut f32,
    delay: &mut [f32; MOST_PHASE_TAPS],
    prototype: &mut [f32; MOST_CELLS],
    cuts: &mut u32,
    thinning: &mut usize,
    neighbours: &mut [i32; MOST_NEIGHBOURS],
) -> usize
    ensures setting { IsFlag straight.new × IsFlag thinning.new }
    ensures answer { let after = line_at exit stages r integrators combs sample_counter taps tap_count factor fir_delay wait
        depth delays held counts phases phase_taps straight mu step delay prototype cuts thinning neighbours in
        record { number = result; state = after } ≡ K.taken_up P.panel bytes.now }
    ensures back { let after = line_at exit stages r integrators combs sample_counter taps tap_count factor fir_delay wait
        depth delays held counts phases phase_taps straight mu step delay prototype cuts thinning neighbours in
        TakenBack bytes.now (record { number = result; state = after }) }
    ensures parked { let after = line_at exit stages r integrators combs sample_counter taps tap_count factor fir_delay wait
        depth delays held counts phases phase_taps straight mu step delay prototype cuts thinning neighbours in
        AsParked bytes.now (record { number = result; state = after }) }
    ensures earlier { let after = line_at exit stages r integrators combs sample_counter taps tap_count factor fir_delay wait
        depth delays held counts phases phase_taps straight mu step delay prototype cuts thinning neighbours in
        StillTaken bytes.now (record { number = result; state = after }) }
{
    // Taking up writes over it.
    let mut n = LineNumbers::default();
    let mut lent = Places {
        integrators,
        combs,
        neighbours,
        taps,
        fir_delay,
        delays,
        held,
        counts,
        delay,
        prototype,
    };
    let answer = take_up_lent(bytes, &mut n, &mut lent);
    put_numbers(
        n,
        stages,
        r,
        sample_counter,
        tap_count,
        factor,
        wait,
        depth,
        phases,
        phase_taps,
        straight,
        mu,
        step,
        cuts,
        thinning,
    );
    number(&answer)
}
