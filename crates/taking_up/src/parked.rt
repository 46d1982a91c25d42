// A parked line: its settings and its entries, which are as long as the settings make them and within 01's limits; and what they are read as.
ghost use Rattle.std.specs.Prelude.{◌≡◌, ◌&&◌, leb};
ghost use Rattle.std.specs.Float.Ieee.{of_bits};
ghost use Rattle.std.specs.Float.{binary32};
ghost use Rattle.integer.specs.CicDecimator.{decimator_of};
ghost use Rattle.q15.specs.FirDecimator.{fir_state};
ghost use Rattle.half_band.specs.HbfStream.{stream_of};
ghost use Rattle.float.specs.PolyphaseResamp as R;
ghost use Rattle.line.specs.Placed.{SamePlaces, line_on};
ghost use Rattle.line.specs.inner.Together.{valid_at};
ghost use Rattle.parking.specs.Entries as E;
ghost use Rattle.parking.specs.inner.Limits.{InLimits};
ghost use Rattle.parking.specs.inner.Told.{numbers_of};
ghost use Rattle.taking_up.specs.inner.ByKind.{Long, kind_in, told, line_by};
ghost use Rattle.taking_up.specs.inner.Taking as T;

use crate::clearing::{clear_fir, clear_half_band, clear_resampler};
use crate::entries::Entries;
use crate::reading::{fir_written, read_neighbours, read_sums, read_values, resampler_written};
use crate::rows::{are_floats, get_all};
use float::settings::{MOST_CELLS, MOST_PHASE_TAPS};
use half_band::{DEC_CASCADE_DELAYS, MOST_DEPTH};
use integer::limits::MOST_STAGES;
use line::{Clock, LineNumbers, Places, Settings, numbers_valid};
use nonrecursive::nonrecursive_decimator::MOST_NEIGHBOURS;
use parking::settings::{ParkedSettings, half_band_bytes, window};
use q15::MOST_TAPS;
use sheet::fields::{le16_at, le32_at};
use words::{f32_of_bits, is_f32_bits};

#[derive(Clone, Copy)]
pub(crate) struct Parked<'a> {
    pub q: ParkedSettings,
    pub e: Entries<'a>,
    ghost limits: { InLimits (numbers_of q) },
    ghost long: { Long (kind_in e) (numbers_of q) (told e) },
}

impl<'a> Parked<'a> {
    // Section 1 of either kind, and its counter or its place.
    #[tactic(auto, unfolding(crate::specs::inner::Taking::line_of_seven, crate::specs::inner::Taking::line_of_eight))]
    fn read_first(
        self,
        integrators: &mut [i32; MOST_STAGES],
        combs: &mut [i32; MOST_STAGES],
        neighbours: &mut [i32; MOST_NEIGHBOURS],
    ) -> usize
        ensures sums { let line = line_by (kind_in self.entry.e) (numbers_of self.entry.q) (told self.entry.e) in
            decimator_of self.entry.q.stages self.entry.q.r integrators.new combs.new result ≡ line.cic }
        ensures neighbours { let line = line_by (kind_in self.entry.e) (numbers_of self.entry.q) (told self.entry.e) in
            neighbours.new ≡ line.neighbours }
    {
        match self.e.last {
            None => read_sums(self.q, self.e.cic, integrators, combs, neighbours),
            Some(last) => read_neighbours(self.q, last, integrators, combs, neighbours),
        }
    }

    // Section 3, and its wait.
    #[tactic(auto, unfolding(parking::specs::Entries::fir_from))]
    fn read_fir(self, taps: &mut [i16; MOST_TAPS], delay: &mut [i16; MOST_TAPS]) -> usize
        ensures { let q = self.entry.q in let e = told self.entry.e in
            fir_state taps.new q.taps q.factor delay.new result ≡ E.fir_from (numbers_of q) e.taps e.delay }
    {
        let n = self.q.taps;
        let e = self.e.delay;
        clear_fir(taps, delay);
        read_values(self.e.taps, 0, n, taps);
        read_values(e, 2, n, delay);
        usize::from(le16_at(e, 0))
    }

    // The half-band stages. By their numbers, since by these go their places in the entry.
    #[tactic(auto, unfolding(parking::specs::Entries::half_band_from, parking::specs::Entries::counts_from, parking::specs::Entries::held_from, parking::specs::Entries::delays_from))]
    fn read_half_band(
        self,
        delays: &mut [f32; DEC_CASCADE_DELAYS],
        held: &mut [f32; MOST_DEPTH],
        counts: &mut [usize; MOST_DEPTH],
    )
        ensures { let q = self.entry.q in
            stream_of q.depth delays.new held.new counts.new ≡ E.half_band_from (numbers_of q) (told self.entry.e).half_band }
    {
        let e = self.e.half_band;
        clear_half_band(delays, held, counts);
        for k in 0..self.q.depth {
            let at = half_band_bytes(k);
            let from = 96 * k;
            counts[k] = usize::from(le16_at(e, at));
            held[k] = f32_of_bits(le32_at(e, at + 2));
            get_all(e, at + 6, &mut delays[from..from + window(k)]);
        }
    }

    // Section 5, and its mu.
    #[tactic(auto, unfolding(parking::specs::Entries::resampler_from), using(parking::proofs::StageLengths::cells_most))]
    fn read_resampler(
        self,
        delay: &mut [f32; MOST_PHASE_TAPS],
        prototype: &mut [f32; MOST_CELLS],
    ) -> f32
        ensures { let q = self.entry.q in let e = told self.entry.e in
            R.together (leb 1 q.straight) q.phases q.phase_taps result (of_bits binary32 q.step) delay.new prototype.new ≡ E.resampler_from (numbers_of q) e.cells e.resampler }
    {
        let q = self.q;
        let e = self.e.resampler;
        clear_resampler(delay, prototype);
        read_values(e, 4, q.phase_taps, delay);
        read_values(self.e.cells, 0, q.phases * q.phase_taps, prototype);
        f32_of_bits(le32_at(e, 0))
    }

    // The line, into the arrays that are lent, and its numbers.
    pub(crate) fn read(self, lent: &mut Places<'_>) -> LineNumbers
        ensures same { SamePlaces lent.old lent.new }
        ensures line { line_on result lent.new ≡ line_by (kind_in self.entry.e) (numbers_of self.entry.q) (told self.entry.e) }
    {
        let q = self.q;
        let place = self.read_first(lent.integrators, lent.combs, lent.neighbours);
        let wait = self.read_fir(lent.taps, lent.fir_delay);
        self.read_half_band(lent.delays, lent.held, lent.counts);
        let mu = self.read_resampler(lent.delay, lent.prototype);
        LineNumbers {
            settings: Settings {
                stages: q.stages,
                r: q.r,
                factor: q.factor,
                depth: q.depth,
                phases: q.phases,
                phase_taps: q.phase_taps,
                straight: 1 <= q.straight,
                step: f32_of_bits(q.step),
                thinning: self.e.thinning(),
            },
            tap_count: q.taps,
            clock: Clock {
                sample_counter: place,
                wait,
                mu,
                cuts: q.cuts,
            },
        }
    }

    // Whether parking writes such half-band stages. A loop, as in `are_floats`, whose proof over `all` did not close.
    #[tactic(auto, unfolding(parking::specs::Entries::stages_written), using(parking::proofs::StageLengths::bytes_most))]
    fn stages_written(self) -> bool
        ensures { result ≡ E.stages_written (told self.entry.e).half_band self.entry.q.depth }
    {
        for k in 0..self.q.depth {
            if !are_floats(self.e.half_band, half_band_bytes(k) + 2, 1 + window(k)) {
                return false;
            }
        }
        true
    }

    // Whether the floats of the entries are words that parking writes.
    #[tactic(auto, unfolding(crate::specs::inner::Taking::floats_written))]
    fn floats_written(self) -> bool
        ensures { let e = told self.entry.e in result ≡ T.floats_written (numbers_of self.entry.q) e.half_band e.cells e.resampler }
    {
        self.stages_written()
            && are_floats(self.e.cells, 0, self.q.phases * self.q.phase_taps)
            && are_floats(self.e.resampler, 0, 1 + self.q.phase_taps)
    }

    // Whether the line that was read, of these numbers and counts of held samples, is one that parking writes. Refusal 15.
    #[tactic(auto, unfolding(crate::specs::inner::Taking::fields_written))]
    pub(crate) fn is_fine(self, n: LineNumbers, counts: &[usize; MOST_DEPTH]) -> bool
        ensures { let e = told self.entry.e in result ≡ (valid_at n counts.now && T.fields_written (numbers_of self.entry.q) e.delay e.half_band e.cells e.resampler) }
    {
        numbers_valid(n, counts)
            && self.q.straight <= 1
            && is_f32_bits(self.q.step)
            && fir_written(self.q, self.e.delay)
            && resampler_written(self.q, self.e.resampler)
            && self.floats_written()
    }
}
