// A parked sheet read: its settings and whether they are in 01's limits, values, and section 1 of its line.
ghost use Rattle.std.specs.Prelude.{◌≡◌, ◌+◌, ◌*◌, ◌≤◌, ◌<◌, length, replicate, pos};
ghost use Rattle.integer.specs.CicDecimator.{decimator_of};
ghost use Rattle.nonrecursive.specs.NonrecursiveDecimator.{most_neighbours};
ghost use Rattle.sheet.specs.Laid.{laid};
ghost use Rattle.words.specs.Fields.{values_at};
ghost use Rattle.parking.specs.Entries as E;
ghost use Rattle.parking.specs.inner.Limits.{InWords};
ghost use Rattle.parking.specs.Parked as P;
ghost use Rattle.taking_up.specs.inner.Taking as T;
ghost use Rattle.parking.specs.inner.Told.{numbers_of};

use crate::clearing::clear_sums;
use crate::rows::get_all;
use float::settings::{MOST_PHASE_TAPS, MOST_PHASES};
use half_band::MOST_DEPTH;
use integer::limits::{MOST_FACTOR, MOST_STAGES};
use nonrecursive::nonrecursive_decimator::MOST_NEIGHBOURS;
use parking::settings::{ParkedSettings, halvings};
use q15::MOST_TAPS;
use sheet::fields::{le16_at, le32_at};
use words::Word;

// The settings entry.
#[tactic(auto, unfolding(parking::specs::Parked::settings_of))]
pub(crate) fn settings_from(e: &[u8]) -> ParkedSettings
    ensures value { numbers_of result ≡ P.settings_of e.now }
    ensures below { InWords (numbers_of result) }
{
    ParkedSettings {
        stages: usize::from(le16_at(e, 0)),
        r: usize::from(le16_at(e, 2)),
        taps: usize::from(le16_at(e, 4)),
        factor: usize::from(le16_at(e, 6)),
        depth: usize::from(le16_at(e, 8)),
        phases: usize::from(le16_at(e, 10)),
        phase_taps: usize::from(le16_at(e, 12)),
        straight: usize::from(le16_at(e, 14)),
        step: le32_at(e, 16),
        cuts: le32_at(e, 20),
    }
}

// Whether the numbers are in 01's limits.
#[tactic(auto, unfolding(crate::specs::inner::Taking::in_limits))]
pub(crate) fn in_limits(q: ParkedSettings) -> bool
    ensures { result ≡ T.in_limits (numbers_of q) }
{
    q.stages <= MOST_STAGES
        && q.r <= MOST_FACTOR
        && q.taps <= MOST_TAPS
        && q.depth <= MOST_DEPTH
        && q.phases <= MOST_PHASES
        && q.phase_taps <= MOST_PHASE_TAPS
}

// n values from a place on, into the front of an array.
#[tactic(auto, unfolding(sheet::specs::Laid::laid))]
pub(crate) fn read_values<W: Word>(e: &[u8], at: usize, n: usize, into: &mut [W])
    requires { (n ≤ length into.old) × (at + W.SIZE * n ≤ length e.now) }
    ensures { into.new ≡ laid 0 (values_at W.value_at W.SIZE e.now at n) into.old }
{
    get_all(e, at, &mut into[..n]);
}

// Section 1 of a line of integrators, and its counter; its neighbours are off. Of one kind, so this and the next are lent its entry, and are no methods of `Parked`, which is of either.
#[tactic(auto, unfolding(parking::specs::Entries::cic_from))]
pub(crate) fn read_sums(
    q: ParkedSettings,
    e: &[u8],
    integrators: &mut [i32; MOST_STAGES],
    combs: &mut [i32; MOST_STAGES],
    neighbours: &mut [i32; MOST_NEIGHBOURS],
) -> usize
    requires { (q.stages ≤ 8) × (length e.now ≡ 2 + 8 * q.stages) }
    ensures sums { decimator_of q.stages q.r integrators.new combs.new result ≡ E.cic_from (numbers_of q) e.now }
    ensures neighbours { neighbours.new ≡ replicate most_neighbours (pos 0) }
{
    let n = q.stages;
    clear_sums(integrators, combs, neighbours);
    read_values(e, 2, n, integrators);
    read_values(e, 2 + 4 * n, n, combs);
    usize::from(le16_at(e, 0))
}

// The neighbours of a line of such, and zeros behind those that the factor's halvings use; and its place. Its integrators and combs are off.
#[tactic(auto, unfolding(parking::specs::Entries::place_from, parking::specs::Entries::neighbours_from, parking::specs::Parked::neighbour_count), using(parking::proofs::Thinned::few_neighbours))]
pub(crate) fn read_neighbours(
    q: ParkedSettings,
    e: &[u8],
    integrators: &mut [i32; MOST_STAGES],
    combs: &mut [i32; MOST_STAGES],
    neighbours: &mut [i32; MOST_NEIGHBOURS],
) -> usize
    requires { (q.stages ≤ 8) × (q.r ≤ 4096) × (length e.now ≡ 2 + 4 * P.neighbour_count q.stages q.r) }
    ensures sums { decimator_of q.stages q.r integrators.new combs.new result ≡ E.place_from (numbers_of q) e.now }
    ensures neighbours { neighbours.new ≡ E.neighbours_from (numbers_of q) e.now }
{
    clear_sums(integrators, combs, neighbours);
    read_values(e, 2, q.stages * halvings(q.r), neighbours);
    usize::from(le16_at(e, 0))
}

// A part that is off is parked as zeros.
#[tactic(auto, unfolding(parking::specs::Entries::fir_written))]
pub(crate) fn fir_written(q: ParkedSettings, e: &[u8]) -> bool
    ensures { result ≡ E.fir_written (numbers_of q) e.now }
{
    q.taps != 0 || (q.factor == 0 && le16_at(e, 0) == 0)
}

#[tactic(auto, unfolding(parking::specs::Entries::resampler_written))]
pub(crate) fn resampler_written(q: ParkedSettings, e: &[u8]) -> bool
    ensures { result ≡ E.resampler_written (numbers_of q) e.now }
{
    q.phases != 0 || (q.phase_taps == 0 && q.straight == 0 && q.step == 0 && le32_at(e, 0) == 0)
}
