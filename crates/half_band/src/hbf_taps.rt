// The 140 dB half-band taps of the Rust, one table: 23 taps from 0 on, 10 from 23, 5 from 33, 4 from 38 and 3 from 42.
ghost use Rattle.std.specs.Prelude.{◌≡◌, ◌+◌, ◌*◌, ◌<◌, ◌≤◌, ℕ, length};
ghost use Rattle.half_band.specs.HbfTaps.{Table, hbf_taps, stage_taps, decimation, interpolation};
ghost use Rattle.half_band.specs.inner.FiveStages.{FiveStages, decimation_five, decimation98_five, interpolation_five};
ghost use Rattle.half_band.specs.HbfTaps98.{hbf_taps98, decimation98};

use crate::half_band::Taps;
use crate::limits::{MOST_DEPTH, MOST_HALF_BAND_TAPS};
use std::ops::Range;

pub const HBF_TAPS: [f32; 45] = [
    7.60375795e-07,
    -3.77494111e-06,
    1.26458559e-05,
    -3.43188253e-05,
    8.10687478e-05,
    -1.72971467e-04,
    3.40845059e-04,
    -6.29522864e-04,
    1.10128831e-03,
    -1.83933299e-03,
    2.95124926e-03,
    -4.57290964e-03,
    6.87374176e-03,
    -1.00656257e-02,
    1.44199840e-02,
    -2.03025100e-02,
    2.82462332e-02,
    -3.91128509e-02,
    5.44795658e-02,
    -7.77002672e-02,
    1.17523452e-01,
    -2.06185388e-01,
    6.34588695e-01,
    -1.12811343e-05,
    1.12724671e-04,
    -6.07439343e-04,
    2.31904511e-03,
    -7.00322950e-03,
    1.78225473e-02,
    -4.01209836e-02,
    8.43315989e-02,
    -1.83189521e-01,
    6.26346521e-01,
    0.0007686,
    -0.00768669,
    0.0386536,
    -0.14002434,
    0.60828885,
    -0.00261331,
    0.02476858,
    -0.12112638,
    0.59897111,
    0.01186105,
    -0.09808109,
    0.58622005,
];

// 02, §11: the 98 dB taps of the Rust, one table: 15 taps from 0 on, 6 from 15, 3 from 21, 3 from 24 and 2 from 27.
pub const HBF_TAPS_98: [f32; 29] = [
    7.02144012e-05,
    -2.43279582e-04,
    6.35026936e-04,
    -1.39782541e-03,
    2.74613582e-03,
    -4.96403839e-03,
    8.41806912e-03,
    -1.35827601e-02,
    2.11004053e-02,
    -3.19267647e-02,
    4.77024289e-02,
    -7.18014345e-02,
    1.12942004e-01,
    -2.03279594e-01,
    6.33592923e-01,
    -0.00086943,
    0.00577837,
    -0.02201674,
    0.06357869,
    -0.16627679,
    0.61979312,
    0.01414651,
    -0.10439639,
    0.59026742,
    0.01227974,
    -0.09930782,
    0.58702834,
    -0.06291796,
    0.5629161,
];

// The stages that a cascade runs: five, each with the taps of a half-band filter.
pub trait StageTable {
    ghost table: { Table };

    // The taps of stage k, of which there are five.
    fn stage(k: usize) -> &'static [f32]
        ensures { result.now ≡ stage_taps table k };

    ghost five: { FiveStages (stage_taps table) };
}

// The taps of stage k, and where its window lies among a cascade's delays: each tap has so many places there, 4 in a decimating cascade and 2 in an interpolating one.
#[inline(always)]
pub(crate) fn stage_at<T: StageTable>(k: usize, places: usize) -> (Taps<'static>, Range<usize>)
    requires { (k < 5) × (places ≤ 4) }
    ensures { let taps = stage_taps T.table k in
        (result.0.all.now ≡ taps) × ((result.1.start ≡ 24 * places * k) × (result.1.end ≡ 24 * places * k + places * length taps)) }
{
    let taps = Taps { all: T::stage(k) };
    let from = (MOST_HALF_BAND_TAPS + 1) * places * k;
    (taps, from..from + places * taps.all.len())
}

// A decimation with the 140 dB taps, from the highest rate on: M = 3, 4, 5, 10, 23.
#[derive(Clone, Copy)]
pub struct Db140;

// A decimation with the 98 dB taps, from the highest rate on: M = 2, 3, 3, 6, 15.
#[derive(Clone, Copy)]
pub struct Db98;

// An interpolation with the 140 dB taps, from the lowest rate on: M = 23, 10, 5, 4, 3.
#[derive(Clone, Copy)]
pub struct Interpolation;

impl StageTable for Db140 {
    ghost table = { decimation };

    ghost five = { decimation_five };

    fn stage(k: usize) -> &'static [f32] {
        match k {
            0 => &HBF_TAPS[42..],
            1 => &HBF_TAPS[38..42],
            2 => &HBF_TAPS[33..38],
            3 => &HBF_TAPS[23..33],
            4 => &HBF_TAPS[..23],
            _ => &[],
        }
    }
}

// As above, cut at other places: a table is a constant, and so is each of its slices.
impl StageTable for Db98 {
    ghost table = { decimation98 };

    ghost five = { decimation98_five };

    fn stage(k: usize) -> &'static [f32] {
        match k {
            0 => &HBF_TAPS_98[27..],
            1 => &HBF_TAPS_98[24..27],
            2 => &HBF_TAPS_98[21..24],
            3 => &HBF_TAPS_98[15..21],
            4 => &HBF_TAPS_98[..15],
            _ => &[],
        }
    }
}

// The first table turned round.
#[tactic(auto, using(crate::proofs::StageTables::turned, crate::proofs::StageTables::turned_past))]
impl StageTable for Interpolation {
    ghost table = { interpolation };

    ghost five = { interpolation_five };

    fn stage(k: usize) -> &'static [f32] {
        if k < MOST_DEPTH {
            return Db140::stage(MOST_DEPTH - 1 - k);
        }
        &[]
    }
}

// The table, each entry the f32 nearest to its printed decimal.
#[tactic(auto, using(crate::proofs::Decimals::taps_printed))]
pub fn hbf_tap_table() -> [f32; 45]
    ensures { result ≡ hbf_taps }
{
    HBF_TAPS
}

// The 98 dB table, each entry the f32 nearest to its printed decimal.
#[tactic(auto, using(crate::proofs::Decimals98::taps98_printed))]
pub fn hbf_tap_table_98() -> [f32; 29]
    ensures { result ≡ hbf_taps98 }
{
    HBF_TAPS_98
}
