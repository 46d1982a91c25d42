// Prototypes stored phase by phase.
ghost use Rattle.std.specs.Prelude.{◌≡◌, ◌*◌, length};
ghost use Rattle.phase_rows.specs.PhaseRows as R;

use crate::answers::number;
use phase_rows::{prototype_by_phase, prototype_by_tap};

#[unsafe(no_mangle)]
pub extern "C" fn gauge_raw_prototype_by_phase(
    phases: usize,
    taps: usize,
    prototype: &[f32],
    rows: &mut [f32],
    written: &mut usize,
) -> usize
    ensures answer { record { number = result; value = written.new } ≡ R.rows_answer phases taps (length prototype.now) (length rows.old) }
    ensures span { let h = prototype.now in
        rows.new ≡ R.rows_span phases taps (length h) (R.by_phase phases taps h) rows.old }
    ensures rearranges { length prototype.now ≡ phases * taps → R.Rearranges phases taps prototype.now }
{
    let answer = prototype_by_phase(phases, taps, prototype, rows);
    let told = number(&answer);
    *written = answer.unwrap_or(0);
    told
}

#[unsafe(no_mangle)]
pub extern "C" fn gauge_raw_prototype_by_tap(
    phases: usize,
    taps: usize,
    rows: &[f32],
    prototype: &mut [f32],
    written: &mut usize,
) -> usize
    ensures answer { record { number = result; value = written.new } ≡ R.rows_answer phases taps (length rows.now) (length prototype.old) }
    ensures span { let g = rows.now in
        prototype.new ≡ R.rows_span phases taps (length g) (R.by_tap phases taps g) prototype.old }
    ensures rearranges { length rows.now ≡ phases * taps → R.Rearranges phases taps rows.now }
{
    let answer = prototype_by_tap(phases, taps, rows, prototype);
    let told = number(&answer);
    *written = answer.unwrap_or(0);
    told
}
