// `FirDecimator`: taps, tap_count, factor, delay, wait.
ghost use Rattle.std.specs.Prelude.{◌≡◌};
ghost use Rattle.q15.specs.FirDecimator.{fir_opened, fir_reset, fir_step, Streams};
ghost use Rattle.gauge_line.specs.Crossing.{crossed_fir};
ghost use Rattle.gauge_line.specs.States.{entry, exit, fir_at};

use crate::answers::{self, number, output};
use crate::states::{fir, flag, put_fir};
use q15::fir_decimator::sample_lent;
use q15::{Cut, FirDecimator, FirSettings, MOST_TAPS, Q15};

// What stands in the places of an output where there is none.
const NO_OUTPUT: Cut = Cut {
    value: Q15(0),
    cut: false,
};

// The number in the name is that of the state's layout: a program that was compiled with a header in which the arrays are shorter does not link.
#[unsafe(no_mangle)]
pub extern "C" fn gauge_raw_fir_decimator_new_2(
    wanted_taps: &[i16],
    wanted_factor: usize,
    taps: &mut [i16; MOST_TAPS],
    tap_count: &mut usize,
    factor: &mut usize,
    delay: &mut [i16; MOST_TAPS],
    wait: &mut usize,
) -> usize
    ensures answer { record { number = result; state = fir_at exit taps tap_count factor delay wait } ≡ fir_opened wanted_taps.now wanted_factor }
    ensures stream { result ≡ 0 → Streams wanted_taps.now wanted_factor (fir_at exit taps tap_count factor delay wait) }
{
    let opened = FirDecimator::new(wanted_taps, wanted_factor);
    let told = number(&opened);
    let state = opened.unwrap_or(FirDecimator::zeros());
    put_fir(&state, taps, tap_count, factor, delay, wait);
    told
}

#[unsafe(no_mangle)]
pub extern "C" fn gauge_raw_fir_decimator_reset(
    taps: &mut [i16; MOST_TAPS],
    tap_count: &mut usize,
    factor: &mut usize,
    delay: &mut [i16; MOST_TAPS],
    wait: &mut usize,
) -> usize
    ensures answer { let before = fir_at entry taps tap_count factor delay wait in
        let after = fir_at exit taps tap_count factor delay wait in
        record { number = result; state = after } ≡ fir_reset before }
{
    let mut state = fir(*taps, *tap_count, *factor, *delay, *wait);
    let answer = state.reset();
    put_fir(&state, taps, tap_count, factor, delay, wait);
    number(&answer)
}

#[unsafe(no_mangle)]
pub extern "C" fn gauge_raw_fir_decimator_process_sample(
    taps: &mut [i16; MOST_TAPS],
    tap_count: &mut usize,
    factor: &mut usize,
    delay: &mut [i16; MOST_TAPS],
    wait: &mut usize,
    sample: i16,
    made: &mut usize,
    value: &mut i16,
    cut: &mut usize,
) -> usize
    ensures answer { let before = fir_at entry taps tap_count factor delay wait in
        let after = fir_at exit taps tap_count factor delay wait in
        record { number = result; value = (made.new, (value.new, cut.new)); state = after } ≡ crossed_fir (fir_step before sample) }
{
    let settings = FirSettings {
        tap_count: *tap_count,
        factor: *factor,
    };
    let answer = sample_lent(delay, taps, settings, wait, Q15(sample));
    let told = number(&answer);
    let filtered = output(answer);
    *made = answers::made(&filtered);
    let last = filtered.unwrap_or(NO_OUTPUT);
    *value = last.value.0;
    *cut = flag(last.cut);
    told
}
