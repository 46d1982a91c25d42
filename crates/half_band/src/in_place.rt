// A stage of a decimating cascade in place: the values stand at the end of a tape, the window is put in front of them, and their outputs take their places at the
// end, where the next stage finds them. So no stage moves its values, and a tape has places for the longest window and for the values of the first stage.
ghost use Rattle.std.specs.Prelude.{◌≡◌, [], ◌++◌, ◌≤◌, ◌+◌, ◌-◌, ◌*◌, length, take, drop};
ghost use Rattle.theory.specs.Sections.{onto, state, outs};
ghost use Rattle.half_band.specs.Windows.{pairs};
ghost use Rattle.half_band.specs.inner.Decimator.{decimator};

use crate::half_band::{Taps, dec_at};

// Window and lead are put in front of what stands behind them.
fn lay_before(line: &mut [f32], window: &[f32], lead: Option<f32>)
    requires { length window.now + length (onto lead []) ≤ length line.old }
    ensures { line.new ≡ window.now ++ onto lead (drop (length window.now + length (onto lead [])) line.old) }
{
    let long = window.len();
    line[..long].copy_from_slice(window);
    if let Some(held) = lead {
        line[long] = held;
    }
}

// The window in front of a line moves along it by pairs, from the last one back, and the outputs take the places at the line's end: each is written behind all that
// the earlier ones read. An odd last value is in no pair.
fn decimate_back(line: &mut [f32], taps: Taps)
    requires { 4 * length taps.all.now ≤ length line.old }
    ensures { let long = 4 * length taps.entry.all.now in
        let made = outs (decimator taps.entry.all.now) (take long line.old) (pairs (drop long line.old)) in
        drop (length line.old - length made) line.new ≡ made }
{
    let long = 4 * taps.all.len();
    let n = (line.len() - long) / 2;
    let first = line.len() - n;
    // By number, from the end: the window and the output are places of the same line.
    for i in (0..n).rev() {
        let from = 2 * i + 2;
        line[first + i] = dec_at(&line[from..from + long], taps);
    }
}

// The lead and the values behind the places for both on a line go through the decimator, and their outputs stand at the line's end.
fn decimate_row(line: &mut [f32], window: &mut [f32], taps: Taps, lead: Option<f32>)
    requires { (length window.old ≡ 4 * length taps.all.now) × (length window.old + length (onto lead []) ≤ length line.old) }
    ensures { let stage = decimator taps.entry.all.now in
        let led = onto lead (drop (length window.old + length (onto lead [])) line.old) in
        let made = outs stage window.old (pairs led) in
        (window.new ≡ state stage window.old (pairs led)) × (drop (length line.old - length made) line.new ≡ made) }
{
    lay_before(line, window, lead);
    let long = window.len();
    let past = line.len() - (line.len() - long) % 2;
    window.copy_from_slice(&line[past - long..past]);
    decimate_back(line, taps);
}

// The lead and the last n values of a tape go through the decimator, and their outputs stand at its end. Where they are no pair, nothing is done.
pub(crate) fn decimate_at_end(
    window: &mut [f32],
    taps: Taps,
    lead: Option<f32>,
    tape: &mut [f32],
    n: usize,
)
    requires { (length window.old ≡ 4 * length taps.all.now) × (n + 96 ≤ length tape.old) }
    ensures { let stage = decimator taps.entry.all.now in
        let led = onto lead (drop (length tape.old - n) tape.old) in
        let made = outs stage window.old (pairs led) in
        (window.new ≡ state stage window.old (pairs led)) × (drop (length tape.old - length made) tape.new ≡ made) }
{
    let before = usize::from(lead.is_some());
    if before + n < 2 {
        return;
    }
    let from = tape.len() - n - before - window.len();
    decimate_row(&mut tape[from..], window, taps, lead);
}
