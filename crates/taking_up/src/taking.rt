// 02, request 6, and 13 for eight entries: a parked sheet taken up. Refusals 16, 17, 21, 15.
ghost use Rattle.std.specs.Prelude.{◌≡◌, IfErr};
ghost use Rattle.refusal.specs.Outcome.{told_opened, told_reset};
ghost use Rattle.line.specs.Openings as L;
ghost use Rattle.line.specs.Placed.{SamePlaces, line_on};
ghost use Rattle.sheet.specs.Sheet as S;
ghost use Rattle.taking_up.specs.AsParked.{AsParked};
ghost use Rattle.taking_up.specs.TakenBack.{TakenBack};
ghost use Rattle.parking.specs.Older.{StillTaken};
ghost use Rattle.taking_up.specs.inner.ByKind.{Long, kind_in, told, told_read, opened_in_by, opened_by};
ghost use Rattle.parking.specs.Parked as P;
ghost use Rattle.parking.specs.Parking as K;
ghost use Rattle.parking.specs.inner.Told.{numbers_of};

use crate::clearing::clear;
use crate::entries::Entries;
use crate::parked::Parked;
use crate::reading::{in_limits, settings_from};
use crate::stated::Stated;
use line::{Line, LineNumbers, Places, zeros};
use refusal::Refusal;
use sheet::TapSheet;

// What entries of the right lengths answer; the line is read where its arrays lie, and is tested there.
fn open_parts(stated: Stated<'_>, lent: &mut Places<'_>) -> Result<LineNumbers, Refusal>
    requires { Long (kind_in stated.e) (numbers_of stated.q) (told stated.e) }
    ensures same { SamePlaces lent.old lent.new }
    ensures answer { let s = stated.entry in
        told_read result lent.new ≡ opened_in_by (kind_in s.e) (numbers_of s.q) (told s.e) }
{
    let Stated { q, e } = stated;
    if !in_limits(q) {
        return Err(Refusal::State);
    }
    let parked = Parked { q, e };
    let read = parked.read(lent);
    if !parked.is_fine(read, lent.counts) {
        return Err(Refusal::State);
    }
    Ok(read)
}

// What the entries answer.
fn open_entries(e: Entries, lent: &mut Places<'_>) -> Result<LineNumbers, Refusal>
    ensures same { SamePlaces lent.old lent.new }
    ensures answer { told_read result lent.new ≡ opened_by (kind_in e.entry) (told e.entry) }
{
    if e.settings.len() != 24 {
        return Err(Refusal::Parked);
    }
    let q = settings_from(e.settings);
    let stated = Stated { q, e };
    if !stated.is_long() {
        return Err(Refusal::Parked);
    }
    open_parts(stated, lent)
}

// What the sheet answers; of one that is refused the arrays may hold what was read.
fn open_sheet(bytes: &[u8], lent: &mut Places<'_>) -> Result<LineNumbers, Refusal>
    ensures same { SamePlaces lent.old lent.new }
    ensures answer { told_read result lent.new ≡ K.taken_up P.panel bytes.now }
{
    let sheet = TapSheet::checked(bytes)?;
    let e = Entries::of(sheet)?;
    open_entries(e, lent)
}

// `take_up` where the numbers and arrays lie. Refused: all of them are zeros.
pub fn take_up_lent(bytes: &[u8], n: &mut LineNumbers, lent: &mut Places<'_>) -> Result<(), Refusal>
    ensures same { SamePlaces lent.old lent.new }
    ensures answer { told_reset result (line_on n.new lent.new) ≡ K.taken_up P.panel bytes.now }
    ensures refused { IfErr result (λ why. line_on n.new lent.new ≡ L.zeros) }
    ensures back { TakenBack bytes.now (told_reset result (line_on n.new lent.new)) }
    ensures parked { AsParked bytes.now (told_reset result (line_on n.new lent.new)) }
    ensures earlier { StillTaken bytes.now (told_reset result (line_on n.new lent.new)) }
{
    match open_sheet(bytes, lent) {
        Ok(read) => {
            *n = read;
            Ok(())
        }
        Err(row) => {
            clear(n, lent);
            Err(row)
        }
    }
}

// The line of a parked sheet. Refusals 16, 17, 21, then 15. The clause `back`: of what parking left in front of a span, after any feeds and parkings, the line never
// parked, and of any line's sheet one that goes on as it. The clause `parked`: what is taken up parks to the entries that it was taken from. The clause `earlier`: what an older
// panel takes up is taken up, as the same line.
pub fn take_up(bytes: &[u8]) -> Result<Line, Refusal>
    ensures answer { told_opened L.zeros result ≡ K.taken_up P.panel bytes.now }
    ensures back { TakenBack bytes.now (told_opened L.zeros result) }
    ensures parked { AsParked bytes.now (told_opened L.zeros result) }
    ensures earlier { StillTaken bytes.now (told_opened L.zeros result) }
{
    let mut line = zeros();
    let mut n = LineNumbers::default();
    // A function can't make it, as in line's `open`: of a `&mut Line` it may hand out one field and no more.
    let mut lent = Places {
        integrators: &mut line.cic.integrator_state,
        combs: &mut line.cic.comb_state,
        neighbours: &mut line.neighbours,
        taps: &mut line.fir.taps,
        fir_delay: &mut line.fir.delay,
        delays: &mut line.half_band.delays,
        held: &mut line.half_band.held,
        counts: &mut line.half_band.counts,
        delay: &mut line.resampler.delay,
        prototype: &mut line.resampler.prototype,
    };
    take_up_lent(bytes, &mut n, &mut lent)?;
    line.put_numbers(n);
    Ok(line)
}
