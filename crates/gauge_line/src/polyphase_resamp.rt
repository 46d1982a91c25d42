// `PolyphaseResampF32`: phases, taps, straight, mu, step, delay, prototype.
ghost use Rattle.std.specs.Prelude.{◌≡◌, true, false};
ghost use Rattle.float.specs.PolyphaseOpening as O;
ghost use Rattle.float.specs.PolyphaseResamp as R;
ghost use Rattle.float.specs.PolyphaseWhole as W;
ghost use Rattle.gauge_line.specs.Crossing.{is_set};
ghost use Rattle.gauge_line.specs.States.{entry, exit, IsFlag, resampler_at};

use crate::answers::number;
use crate::states::{flag, is_set};
use float::settings::{MOST_CELLS, MOST_PHASE_TAPS, Setting};
use refusal::NONE_MOVED;

// What an opening set, of the numbers that a caller lends.
fn setting(phases: usize, taps: usize, straight: usize, step: f32) -> Setting
    ensures { result ≡ record { phases = phases; phase_taps = taps; straight = is_set straight; step = step } }
{
    Setting {
        phases,
        phase_taps: taps,
        straight: is_set(straight),
        step,
    }
}

// And back into the places that were lent for it.
fn put_setting(
    next: Setting,
    phases: &mut usize,
    taps: &mut usize,
    straight: &mut usize,
    step: &mut f32,
)
    ensures state { (phases.new ≡ next.phases) × (taps.new ≡ next.phase_taps) × (is_set straight.new ≡ next.straight) × (step.new ≡ next.step) }
    ensures setting { IsFlag straight.new }
{
    *phases = next.phases;
    *taps = next.phase_taps;
    *straight = flag(next.straight);
    *step = next.step;
}

#[unsafe(no_mangle)]
pub extern "C" fn gauge_raw_polyphase_resamp_from_taps(
    wanted_phases: usize,
    wanted_taps: usize,
    wanted_prototype: &[f32],
    wanted_step: f32,
    phases: &mut usize,
    taps: &mut usize,
    straight: &mut usize,
    mu: &mut f32,
    step: &mut f32,
    delay: &mut [f32; MOST_PHASE_TAPS],
    prototype: &mut [f32; MOST_CELLS],
) -> usize
    ensures setting { IsFlag straight.new }
    ensures answer { let after = resampler_at exit phases taps straight mu step delay prototype in
        record { number = result; state = after } ≡ O.opening false wanted_phases wanted_taps wanted_prototype.now wanted_step }
    ensures whole { let after = resampler_at exit phases taps straight mu step delay prototype in
        W.Opens false wanted_phases wanted_taps wanted_prototype.now wanted_step (record { number = result; state = after }) }
{
    let mut opened = Setting {
        phases: wanted_phases,
        phase_taps: wanted_taps,
        straight: false,
        step: wanted_step,
    };
    let answer = opened.open(wanted_prototype, mu, delay, prototype);
    put_setting(opened, phases, taps, straight, step);
    number(&answer)
}

#[unsafe(no_mangle)]
pub extern "C" fn gauge_raw_polyphase_resamp_from_taps_straight(
    wanted_phases: usize,
    wanted_taps: usize,
    wanted_prototype: &[f32],
    wanted_step: f32,
    phases: &mut usize,
    taps: &mut usize,
    straight: &mut usize,
    mu: &mut f32,
    step: &mut f32,
    delay: &mut [f32; MOST_PHASE_TAPS],
    prototype: &mut [f32; MOST_CELLS],
) -> usize
    ensures setting { IsFlag straight.new }
    ensures answer { let after = resampler_at exit phases taps straight mu step delay prototype in
        record { number = result; state = after } ≡ O.opening true wanted_phases wanted_taps wanted_prototype.now wanted_step }
    ensures whole { let after = resampler_at exit phases taps straight mu step delay prototype in
        W.Opens true wanted_phases wanted_taps wanted_prototype.now wanted_step (record { number = result; state = after }) }
{
    let mut opened = Setting {
        phases: wanted_phases,
        phase_taps: wanted_taps,
        straight: true,
        step: wanted_step,
    };
    let answer = opened.open(wanted_prototype, mu, delay, prototype);
    put_setting(opened, phases, taps, straight, step);
    number(&answer)
}

#[unsafe(no_mangle)]
pub extern "C" fn gauge_raw_polyphase_resamp_reset(
    phases: &mut usize,
    taps: &mut usize,
    straight: &mut usize,
    mu: &mut f32,
    step: &mut f32,
    delay: &mut [f32; MOST_PHASE_TAPS],
    prototype: &mut [f32; MOST_CELLS],
) -> usize
    ensures setting { IsFlag straight.new }
    ensures answer { let before = resampler_at entry phases taps straight mu step delay prototype in
        let after = resampler_at exit phases taps straight mu step delay prototype in
        record { number = result; state = after } ≡ O.reset before }
    ensures whole { let before = resampler_at entry phases taps straight mu step delay prototype in
        let after = resampler_at exit phases taps straight mu step delay prototype in
        W.Resets before (record { number = result; state = after }) }
{
    let own = setting(*phases, *taps, *straight, *step);
    let answer = own.reset(mu, delay, prototype);
    *straight = flag(own.straight);
    number(&answer)
}

#[unsafe(no_mangle)]
pub extern "C" fn gauge_raw_polyphase_resamp_process_block(
    phases: &mut usize,
    taps: &mut usize,
    straight: &mut usize,
    mu: &mut f32,
    step: &mut f32,
    delay: &mut [f32; MOST_PHASE_TAPS],
    prototype: &mut [f32; MOST_CELLS],
    src: &[f32],
    dst: &mut [f32],
    taken: &mut usize,
    written: &mut usize,
) -> usize
    ensures setting { straight.new ≡ straight.old }
    ensures answer { (
        let before = resampler_at entry phases taps straight mu step delay prototype in
        let after = resampler_at exit phases taps straight mu step delay prototype in
        let moved : R.Counts = record { written = written.exit.now; taken = taken.new } in
        record { number = result; value = moved; state = after } ≡ R.block_outcome before src.now dst.old) }
    ensures span { dst.new ≡ R.block_span (resampler_at entry phases taps straight mu step delay prototype) src.now dst.old }
    ensures kept { (
        let before = resampler_at entry phases taps straight mu step delay prototype in
        let after = resampler_at exit phases taps straight mu step delay prototype in
        let moved : R.Counts = record { written = written.exit.now; taken = taken.new } in
        W.BlockKept before src.now dst.old dst.new (record { number = result; value = moved; state = after })) }
{
    let answer = setting(*phases, *taps, *straight, *step).block(mu, delay, prototype, src, dst);
    let told = number(&answer);
    let moved = answer.unwrap_or(NONE_MOVED);
    *taken = moved.taken;
    *written = moved.written;
    told
}

#[unsafe(no_mangle)]
pub extern "C" fn gauge_raw_polyphase_resamp_push(
    phases: &mut usize,
    taps: &mut usize,
    straight: &mut usize,
    mu: &mut f32,
    step: &mut f32,
    delay: &mut [f32; MOST_PHASE_TAPS],
    prototype: &mut [f32; MOST_CELLS],
    x: f32,
    out: &mut [f32],
    written: &mut usize,
) -> usize
    ensures setting { straight.new ≡ straight.old }
    ensures answer { let before = resampler_at entry phases taps straight mu step delay prototype in
        let after = resampler_at exit phases taps straight mu step delay prototype in
        record { number = result; value = written.new; state = after } ≡ R.push_outcome before x out.old }
    ensures span { out.new ≡ R.push_span (resampler_at entry phases taps straight mu step delay prototype) x out.old }
    ensures kept { let before = resampler_at entry phases taps straight mu step delay prototype in
        let after = resampler_at exit phases taps straight mu step delay prototype in
        W.PushKept before x out.old out.new (record { number = result; value = written.new; state = after }) }
{
    let answer = setting(*phases, *taps, *straight, *step).push(mu, delay, prototype, x, out);
    let told = number(&answer);
    *written = answer.unwrap_or(0);
    told
}
