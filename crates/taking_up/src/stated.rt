// What a sheet states of a line, before it is tested: the settings, and the entries that are to be as long as these make them.
ghost use Rattle.std.specs.Prelude.{◌≡◌, length};
ghost use Rattle.parking.specs.inner.Limits.{InWords};
ghost use Rattle.parking.specs.inner.Told.{numbers_of};
ghost use Rattle.taking_up.specs.inner.ByKind.{kind_in, told, first_by, rest_by, long_by};

use crate::entries::Entries;
use parking::settings::{ParkedSettings, half_band_bytes, halvings};

#[derive(Clone, Copy)]
pub(crate) struct Stated<'a> {
    pub q: ParkedSettings,
    pub e: Entries<'a>,
    ghost words: { InWords (numbers_of q) },
}

impl<'a> Stated<'a> {
    // Whether the CIC entry, and of a line of neighbours the last, is as long as the settings make it. Said here again, though parking's `sizes` says it: that one asks for
    // numbers of 16 bits, and a public function asks for nothing.
    #[tactic(auto, unfolding(parking::specs::Parked::neighbour_count))]
    fn first_long(self) -> bool
        ensures { let e = told self.entry.e in result ≡ first_by (kind_in self.entry.e) (numbers_of self.entry.q) (length e.cic) (length e.last) }
    {
        match self.e.last {
            None => self.e.cic.len() == 2 + 8 * self.q.stages,
            Some(last) => {
                self.e.cic.is_empty() && last.len() == 2 + 4 * (self.q.stages * halvings(self.q.r))
            }
        }
    }

    // Whether the entries of both kinds are.
    fn rest_long(self) -> bool
        ensures { result ≡ rest_by (numbers_of self.entry.q) (told self.entry.e) }
    {
        self.e.taps.len() == 2 * self.q.taps
            && self.e.delay.len() == 2 + 2 * self.q.taps
            && self.e.half_band.len() == half_band_bytes(self.q.depth)
            && self.e.cells.len() == 4 * (self.q.phases * self.q.phase_taps)
            && self.e.resampler.len() == 4 + 4 * self.q.phase_taps
    }

    // Whether the entries behind the settings are as long as these make them. Refusal 21.
    pub(crate) fn is_long(self) -> bool
        ensures { result ≡ long_by (kind_in self.entry.e) (numbers_of self.entry.q) (told self.entry.e) }
    {
        self.first_long() && self.rest_long()
    }
}
