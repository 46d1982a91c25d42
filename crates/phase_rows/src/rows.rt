// The two rearrangements.
ghost use Rattle.std.specs.Prelude.{◌≡◌, ◌*◌, ◌≤◌, true, false, ◌&&◌, length, OnOk, OnErr};
ghost use Rattle.refusal.specs.Outcome.{count_answer};
ghost use Rattle.float.specs.PolyphaseOpening.{in_limits};
ghost use Rattle.phase_rows.specs.PhaseRows as R;

use float::settings::in_limits;
use refusal::Refusal;

// dst[p × taps + t] = src[t × phases + p]. With the two numbers exchanged it is its own inverse.
#[tactic(auto, unfolding(crate::specs::PhaseRows::by_phase), using(crate::proofs::Places::inside))]
fn turn_rows(phases: usize, taps: usize, src: &[f32], dst: &mut [f32])
    requires { (phases ≤ 64) × (taps ≤ 64) × (length src.now ≡ phases * taps) × (length dst.old ≡ phases * taps) }
    ensures { dst.new ≡ R.by_phase phases taps src.now }
{
    for (i, place) in dst.iter_mut().enumerate() {
        *place = src[(i % taps) * phases + i / taps];
    }
}

// How many places either call writes: the prototype is phases × taps long, and the span as long as the prototype. Refused by 12 and 13.
#[tactic(auto, unfolding(crate::specs::PhaseRows::lengths_fit))]
fn places(phases: usize, taps: usize, prototype: usize, span: usize) -> Result<usize, Refusal>
    ensures answer { count_answer result ≡ R.rows_answer phases taps prototype span }
    ensures taken { OnOk result ((in_limits phases taps && R.lengths_fit phases taps prototype span) ≡ true) }
    ensures refused { OnErr result ((in_limits phases taps && R.lengths_fit phases taps prototype span) ≡ false) }
{
    if !in_limits(phases, taps) {
        return Err(Refusal::Phases);
    }
    if prototype != phases * taps || span != prototype {
        return Err(Refusal::Prototype);
    }
    Ok(prototype)
}

// A prototype with tap t of phase p at t × P + p, put into rows, one for each phase: tap t of phase p at p × T + t. Refused by 12 and 13.
#[tactic(auto, using(crate::proofs::Places::passed))]
pub fn prototype_by_phase(
    phases: usize,
    taps: usize,
    prototype: &[f32],
    rows: &mut [f32],
) -> Result<usize, Refusal>
    ensures answer { count_answer result ≡ R.rows_answer phases taps (length prototype.now) (length rows.old) }
    ensures span { let h = prototype.now in
        rows.new ≡ R.rows_span phases taps (length h) (R.by_phase phases taps h) rows.old }
    ensures rearranges { length prototype.now ≡ phases * taps → R.Rearranges phases taps prototype.now }
{
    let written = places(phases, taps, prototype.len(), rows.len())?;
    turn_rows(phases, taps, prototype, rows);
    Ok(written)
}

// The inverse: rows, one for each phase, put back into a prototype with tap t of phase p at t × P + p. Refused by 12 and 13. Two names of the paper over one turn.
#[tactic(auto, using(crate::proofs::Places::passed))]
pub fn prototype_by_tap(
    phases: usize,
    taps: usize,
    rows: &[f32],
    prototype: &mut [f32],
) -> Result<usize, Refusal>
    ensures answer { count_answer result ≡ R.rows_answer phases taps (length rows.now) (length prototype.old) }
    ensures span { let g = rows.now in
        prototype.new ≡ R.rows_span phases taps (length g) (R.by_tap phases taps g) prototype.old }
    ensures rearranges { length rows.now ≡ phases * taps → R.Rearranges phases taps rows.now }
{
    let written = places(phases, taps, rows.len(), prototype.len())?;
    turn_rows(taps, phases, rows, prototype);
    Ok(written)
}
