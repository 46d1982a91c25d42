// A line that only counts. The CIC decimator, the FIR and the half-band stages each make a value of every so many, so together they are one countdown: so many
// samples until the next value reaches the resampler, and then so many from each to the next. The samples between two values are counted at once.
ghost use Rattle.std.specs.Prelude.{◌≡◌, cond, ◌+◌, ◌*◌, ◌^◌, ◌≤◌, None, Some};
ghost use Rattle.q15.specs.FirDecimator.{most_taps};
ghost use Rattle.chain.specs.inner.Counting.{or_one};
ghost use Rattle.plan.specs.inner.Ticking as K;

use chain::room::or_one;
use line::Settings;
use refusal::Moved;

// How far a resampler goes on with each output, and where its next one lies.
#[derive(Clone, Copy)]
pub struct Pace {
    pub step: f32,
    pub mu: f32,
}

#[derive(Clone, Copy)]
pub struct Clock {
    // Samples up to and with the one whose value reaches the resampler next.
    pub left: usize,
    // Samples from one such value to the next.
    pub period: usize,
    // The resampler's, if there is one. Without one a value is written as it comes.
    pub pace: Option<Pace>,
}

// Beside half_band's own `rate_change`, which no other crate sees: to hand it out takes more lines than this one.
fn two_to(depth: usize) -> usize
    requires { depth ≤ 5 }
    ensures { result ≡ 2 ^ depth }
{
    1usize << depth
}

impl Clock {
    // The clock of a resampler alone, which gets every value.
    fn of_resampler(s: Settings) -> Clock
        ensures { result ≡ K.resampler_clock s }
    {
        let pace = Pace {
            step: s.step,
            mu: 1.0,
        };
        Clock {
            left: 1,
            period: 1,
            pace: (s.phases != 0).then_some(pace),
        }
    }

    // The clock behind a section whose next value is `left` samples away, and each other `period` more.
    fn slowed(self, left: usize, period: usize) -> Clock
        requires { (left ≤ 4096) × (period ≤ 4096) × (1 ≤ self.left) × (self.left ≤ 4294967296) × (self.period ≤ 4294967296) }
        ensures is { result ≡ K.slowed left period self }
        ensures bounds { (left ≤ result.left) × (result.left ≤ left + self.left * 4096) × (result.period ≤ 4096 * self.period) }
    {
        Clock {
            left: left + (self.left - 1) * period,
            period: period * self.period,
            ..self
        }
    }

    // The clock of a line that was just opened.
    pub(crate) fn of_line(s: Settings, tap_count: usize) -> Clock
        requires { (1 ≤ s.r) × (s.r ≤ 4096) × (1 ≤ or_one tap_count tap_count) × (or_one tap_count tap_count ≤ most_taps) × (or_one tap_count s.factor ≤ 4096) × (s.depth ≤ 5) }
        ensures { result ≡ K.start_clock s tap_count }
    {
        let rate = two_to(s.depth);
        let behind = Clock::of_resampler(s).slowed(rate, rate);
        let first = or_one(tap_count, tap_count);
        let filtered = behind.slowed(first, or_one(tap_count, s.factor));
        filtered.slowed(s.r, s.r)
    }

    // A feed of a line without a resampler: each value is written as it comes, so how many come is one division. In a loop the compiler counted sixteen turns at once, which
    // took longer than one by one.
    fn feed_values(&mut self, piece: usize, places: usize) -> Moved
        requires { (K.Runs self.old) × (self.old.pace ≡ None) }
        ensures { K.CountedTo self.old piece places result.taken result.written self.new }
    {
        if places == 0 {
            return Moved {
                taken: 0,
                written: 0,
            };
        }
        if piece < self.left {
            self.left -= piece;
            return Moved {
                taken: piece,
                written: 0,
            };
        }
        let behind = piece - self.left;
        let more = (behind / self.period).min(places - 1);
        let rest = behind - more * self.period;
        if more + 1 == places {
            self.left = self.period;
            return Moved {
                taken: piece - rest,
                written: places,
            };
        }
        self.left = self.period - rest;
        Moved {
            taken: piece,
            written: more + 1,
        }
    }

    // The same where a resampler gets the values: "An output is due when the resampler is on and mu < 1." A value lowers mu, and an output that is due raises it by the step.
    fn feed_paced(&mut self, pace: Pace, piece: usize, places: usize) -> Moved
        requires { (K.Runs self.old) × (self.old.pace ≡ Some pace) }
        ensures { K.CountedTo self.old piece places result.taken result.written self.new }
    {
        let period = self.period;
        let mut left = self.left;
        let mut mu = pace.mu;
        let mut taken: usize = 0;
        let mut written: usize = 0;
        while written < places {
            if mu < 1.0 {
                mu += pace.step;
                written += 1;
            } else {
                let rest = piece - taken;
                if rest < left {
                    left -= rest;
                    taken = piece;
                    break;
                }
                taken += left;
                left = period;
                mu -= 1.0;
            }
        }
        self.left = left;
        self.pace = Some(Pace { mu, ..pace });
        Moved { taken, written }
    }

    // A feed of so many samples, into so many places.
    pub(crate) fn feed(&mut self, piece: usize, places: usize) -> Moved
        requires { K.Runs self.old }
        ensures { K.CountedTo self.old piece places result.taken result.written self.new }
    {
        match self.pace {
            None => self.feed_values(piece, places),
            Some(pace) => self.feed_paced(pace, piece, places),
        }
    }
}
