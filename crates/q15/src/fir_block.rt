// 01, section 3: FIR decimation of a stream by blocks, for the line. The window's samples so far stand on a tape with the block behind them, so that its windows
// are read where they stand, and only the last is moved.
ghost use Rattle.std.specs.Prelude.{◌≡◌, ℕ, true, ◌++◌, ◌+◌, ◌*◌, ◌≤◌, ◌<◌, length, take, drop};
ghost use Rattle.std.specs.Int.{w16};
ghost use Rattle.refusal.specs.Rows.{most_block};
ghost use Rattle.theory.specs.Lists.{listed};
ghost use Rattle.q15.specs.Fixed.{cut_count};
ghost use Rattle.q15.specs.PolyphaseDecimate.{window_sum, filtered};
ghost use Rattle.q15.specs.FirDecimator.{most_taps, fir_state, moved};
ghost use Rattle.q15.specs.inner.FirBlock.{most_fir_block, fir_block_state, fir_block_outs, fir_block_cuts, Ran, OnTape, stored_run};

use crate::block::{FirBlock, NONE_WRITTEN};
use crate::fir_decimator::fir_at;
use crate::fir_settings::{FirSettings, MOST_TAPS};
use crate::fixed::Q15;
use crate::polyphase_decimate::decimate;

// The most samples of a block.
pub const MOST_FIR_BLOCK: usize = 128;

// The window's samples so far, and a block behind them.
const TAPE: usize = MOST_TAPS + MOST_FIR_BLOCK;

// No bound stands in the settings: they are the numbers of any state, also of one that row 15 refuses, so each function below asks for the bounds that it needs. No struct of
// bounds that `is_on_tape` makes: `fir_output` and `windows_of` need the taps' alone, and the first two have it of states off the tape too.
impl FirSettings {
    // Whether the windows stand on a tape without gaps.
    fn is_on_tape(self, wait: usize) -> bool
        ensures { result ≡ true → OnTape self.tap_count self.factor wait }
    {
        let t = self.tap_count;
        t <= MOST_TAPS && 1 <= self.factor && self.factor <= t && 1 <= wait && wait <= t
    }
}

// The window's first samples in front of a tape, and the block behind them.
fn lay(tape: &mut [i16; TAPE], delay: &[i16; MOST_TAPS], kept: usize, src: &[i16])
    requires { (kept ≤ most_taps) × (length src.now ≤ most_fir_block) }
    ensures { take (kept + length src.now) tape.new ≡ take kept delay.now ++ src.now }
{
    tape[..kept].copy_from_slice(&delay[..kept]);
    tape[kept..kept + src.len()].copy_from_slice(src);
}

// Samples that complete no window, each at its place.
fn store_run(delay: &mut [i16; MOST_TAPS], t: usize, wait: usize, src: &[i16])
    requires { (wait ≤ t) × (t ≤ most_taps) × (length src.now ≤ wait) }
    ensures { delay.new ≡ stored_run t wait src.now delay.old }
{
    let from = t - wait;
    delay[from..from + src.len()].copy_from_slice(src);
}

// How many windows are completed behind the first one.
fn windows_behind(n: usize, wait: usize, factor: usize) -> usize
    requires { (1 ≤ factor) × (wait ≤ n) }
    ensures { (wait + result * factor ≤ n) × (n < wait + result * factor + factor) }
{
    (n - wait) / factor
}

// The outputs of the tape's windows, one at each place. Answers how many of them were cut.
fn windows_of(
    taps: &[i16; MOST_TAPS],
    settings: FirSettings,
    tape: &[i16],
    places: &mut [i16],
) -> usize
    requires { (settings.tap_count ≤ most_taps) × (length tape.now ≤ most_block) × (length places.old ≤ most_block)
        × ((i : ℕ) → i < length places.old → i * settings.factor + settings.tap_count ≤ length tape.now) }
    ensures span { places.new ≡ listed (length places.old) (λ i. filtered taps.now settings.tap_count tape.now (i * settings.factor)) }
    ensures cuts { result ≡ cut_count w16 (listed (length places.old) (λ i. window_sum taps.now settings.tap_count tape.now (i * settings.factor))) }
{
    decimate(tape, &taps[..settings.tap_count], settings.factor, places) as usize
}

// The window that begins at `last` is the last: it is put into the delay moved down, its last samples once more behind it as moving leaves them, and the samples behind
// it are stored. What it returns is the wait.
fn after_last(
    delay: &mut [i16; MOST_TAPS],
    settings: FirSettings,
    tape: &[i16],
    last: usize,
) -> usize
    requires { (settings.tap_count ≤ most_taps) × (settings.factor ≤ settings.tap_count)
        × (last + settings.tap_count ≤ length tape.now) × (length tape.now < last + settings.tap_count + settings.factor) }
    ensures { (delay.new ≡ stored_run settings.tap_count settings.factor (drop (last + settings.tap_count) tape.now)
        (moved settings.tap_count settings.factor (take settings.tap_count (drop last tape.now) ++ drop settings.tap_count delay.old)))
        × (result + length tape.now ≡ last + settings.tap_count + settings.factor) }
{
    let t = settings.tap_count;
    let end = last + t;
    let kept = t - settings.factor;
    delay[..kept].copy_from_slice(&tape[last + settings.factor..end]);
    delay[kept..t].copy_from_slice(&tape[end - settings.factor..end]);
    store_run(delay, t, settings.factor, &tape[end..]);
    settings.factor - (tape.len() - end)
}

// A block by its tape, its outputs in front of the places of its samples: those are laid on the tape before. Delay, taps, settings and wait go one by one: behind a field of
// a lent struct a proof does not know an array's length, and C and chain's `Arrays` lend them so.
fn by_tape(
    delay: &mut [i16; MOST_TAPS],
    taps: &[i16; MOST_TAPS],
    settings: FirSettings,
    wait: &mut usize,
    values: &mut [i16],
) -> FirBlock
    requires { OnTape settings.tap_count settings.factor wait.old × (length values.old ≤ most_fir_block) }
    ensures { Ran (fir_state taps.now settings.tap_count settings.factor delay.old wait.old) values.old result
        (fir_state taps.now settings.tap_count settings.factor delay.new wait.new) values.new }
{
    let n = values.len();
    let t = settings.tap_count;
    if n < *wait {
        store_run(delay, t, *wait, values);
        *wait -= n;
        return NONE_WRITTEN;
    }
    let kept = t - *wait;
    let mut places = [0i16; TAPE];
    lay(&mut places, delay, kept, values);
    let tape = &places[..kept + n];
    let more = windows_behind(n, *wait, settings.factor);
    let written = more + 1;
    let cuts = windows_of(taps, settings, tape, &mut values[..written]);
    *wait = after_last(delay, settings, tape, more * settings.factor);
    FirBlock { written, cuts }
}

// A block sample by sample, for every state: an output takes a place whose sample was taken. Delay, taps, settings and wait go one by one here too: behind a lent struct's
// field a proof knows no array's length.
fn one_by_one(
    delay: &mut [i16; MOST_TAPS],
    taps: &[i16; MOST_TAPS],
    settings: FirSettings,
    wait: &mut usize,
    values: &mut [i16],
) -> FirBlock
    requires { length values.old ≤ most_fir_block }
    ensures { Ran (fir_state taps.now settings.tap_count settings.factor delay.old wait.old) values.old result
        (fir_state taps.now settings.tap_count settings.factor delay.new wait.new) values.new }
{
    let mut written = 0;
    let mut cuts = 0;
    // By number: the sample and the output are places of the same span.
    for i in 0..values.len() {
        let made = fir_at(delay, taps, settings, wait, Q15(values[i]));
        if let Some(y) = made {
            values[written] = y.value.0;
            written += 1;
            cuts += usize::from(y.cut);
        }
    }
    FirBlock { written, cuts }
}

// A block of samples, with the arrays lent: its outputs stand in front of their places. Of more than MOST_FIR_BLOCK samples nothing is done. A leaf for the line, as
// fir_at: it refuses nothing, and takes apart what a state holds. Its tape stands in a frame of its own, which the sections behind do not carry.
#[inline(never)]
pub fn fir_block_at(
    delay: &mut [i16; MOST_TAPS],
    taps: &[i16; MOST_TAPS],
    settings: FirSettings,
    wait: &mut usize,
    values: &mut [i16],
) -> FirBlock
    ensures state { fir_state taps.now settings.tap_count settings.factor delay.new wait.new
        ≡ fir_block_state (fir_state taps.now settings.tap_count settings.factor delay.old wait.old) values.old }
    ensures outputs { let outs = fir_block_outs (fir_state taps.now settings.tap_count settings.factor delay.old wait.old) values.old in
        (result.written ≡ length outs) × (values.new ≡ outs ++ drop result.written values.old) }
    ensures cuts { result.cuts ≡ fir_block_cuts (fir_state taps.now settings.tap_count settings.factor delay.old wait.old) values.old }
{
    let n = values.len();
    if MOST_FIR_BLOCK < n {
        return NONE_WRITTEN;
    }
    if settings.tap_count == 0 {
        return FirBlock {
            written: n,
            cuts: 0,
        };
    }
    if settings.is_on_tape(*wait) {
        return by_tape(delay, taps, settings, wait, values);
    }
    one_by_one(delay, taps, settings, wait, values)
}
