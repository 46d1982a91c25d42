// 01, section 6: the gauge line.
ghost use Rattle.std.specs.Prelude.{◌≡◌, true, length, drop};
ghost use Rattle.theory.specs.Feeds.{head_of};
ghost use Rattle.refusal.specs.Outcome.{number_in, told_opened, told_on, told_reset, none_moved};
ghost use Rattle.line.specs.Openings as B;
ghost use Rattle.line.specs.Line as L;
ghost use Rattle.line.specs.Lent as N;
ghost use Rattle.line.specs.inner.Numbers.{with_clock};
ghost use Rattle.line.specs.Placed.{line_together};
ghost use Rattle.line.specs.Demand3.{Demand3};

use crate::beginning::{open_lent, reset_lent};
use crate::lent::{LineNumbers, feed_lent, step_lent};
use crate::places::Places;
use crate::step::LineStep;
use crate::validity::numbers_valid;
use chain::arrays::Arrays;
use chain::clock::Clock;
use chain::settings::Settings;
use float::PolyphaseResampF32;
use half_band::HbfStream;
use integer::CicDecimator;
use nonrecursive::Thinning;
use nonrecursive::nonrecursive_decimator::MOST_NEIGHBOURS;
use q15::FirDecimator;
use refusal::{Moved, Refusal};

// The parts of a line, each as its layer has it, and how many values were cut to 16 bits. A part that is off is zeros, settings too. `thinning` says which of two
// parts thins: the integrators and combs of `cic`, or the neighbours. The numbers of `cic` are those of either: its `sample_counter` is the neighbours' place.
#[derive(Clone, Copy)]
pub struct Line {
    pub thinning: Thinning,
    pub cic: CicDecimator,
    pub neighbours: [i32; MOST_NEIGHBOURS],
    pub fir: FirDecimator,
    pub half_band: HbfStream,
    pub resampler: PolyphaseResampF32,
    pub cuts: u32,
}

// Each part as its refused opening leaves it, which is zeros.
#[tactic(auto, unfolding(crate::specs::Openings::zeros))]
pub fn zeros() -> Line
    ensures { result ≡ B.zeros }
{
    Line {
        thinning: Thinning::Integrators,
        cic: CicDecimator::fresh(0, 0),
        neighbours: [0; MOST_NEIGHBOURS],
        fir: FirDecimator::zeros(),
        half_band: HbfStream::fresh(0),
        resampler: PolyphaseResampF32::zeros(),
        cuts: 0,
    }
}

// The numbers of a line.
pub fn numbers_in(l: &Line) -> LineNumbers
    ensures { result ≡ N.numbers_in l.now }
{
    LineNumbers {
        settings: Settings {
            stages: l.cic.stages,
            r: l.cic.r,
            factor: l.fir.factor,
            depth: l.half_band.depth,
            phases: l.resampler.phases,
            phase_taps: l.resampler.taps,
            straight: l.resampler.straight,
            step: l.resampler.step,
            thinning: l.thinning,
        },
        tap_count: l.fir.tap_count,
        clock: Clock {
            sample_counter: l.cic.sample_counter,
            wait: l.fir.wait,
            mu: l.resampler.mu,
            cuts: l.cuts,
        },
    }
}

// Whether no call on the line is refused by 15.
pub fn line_valid(l: &Line) -> bool
    ensures { result ≡ B.valid l.now }
{
    numbers_valid(numbers_in(l), &l.half_band.counts)
}

impl Line {
    // The first refusal of 01's table that applies, in its order, or the line. No taps: no FIR. Depth 0: no half-band stages. No phases: no resampler.
    pub fn open(settings: Settings, taps: &[i16], prototype: &[f32]) -> Result<Line, Refusal>
        ensures answer { told_opened B.zeros result ≡ B.opened (record { settings = settings; taps = taps.now; prototype = prototype.now }) }
    {
        let mut line = zeros();
        let mut n = numbers_in(&line);
        // Here and below: a function can't make it, since of a `&mut self` it may hand out one field and no more.
        let mut lent = Places {
            integrators: &mut line.cic.integrator_state,
            combs: &mut line.cic.comb_state,
            neighbours: &mut line.neighbours,
            taps: &mut line.fir.taps,
            fir_delay: &mut line.fir.delay,
            delays: &mut line.half_band.delays,
            held: &mut line.half_band.held,
            counts: &mut line.half_band.counts,
            delay: &mut line.resampler.delay,
            prototype: &mut line.resampler.prototype,
        };
        open_lent(settings, taps, prototype, &mut n, &mut lent)?;
        line.put_numbers(n);
        Ok(line)
    }

    // The clock as a call left it.
    fn put_clock(&mut self, clock: Clock)
        ensures { self.new ≡ with_clock clock self.old }
    {
        self.cic.sample_counter = clock.sample_counter;
        self.fir.wait = clock.wait;
        self.resampler.mu = clock.mu;
        self.cuts = clock.cuts;
    }

    // The numbers as an opening, a reset or the taking up of a parked line left them. A leaf: it looks at nothing, and refuses nothing.
    pub fn put_numbers(&mut self, n: LineNumbers)
        ensures { let l = self.old in
            self.new ≡ line_together n l.cic.integrator_state l.cic.comb_state l.neighbours l.fir.taps l.fir.delay
            l.half_band.delays l.half_band.held l.half_band.counts l.resampler.delay l.resampler.prototype }
    {
        let s = n.settings;
        self.thinning = s.thinning;
        self.cic.stages = s.stages;
        self.cic.r = s.r;
        self.fir.tap_count = n.tap_count;
        self.fir.factor = s.factor;
        self.half_band.depth = s.depth;
        self.resampler.phases = s.phases;
        self.resampler.taps = s.phase_taps;
        self.resampler.straight = s.straight;
        self.resampler.step = s.step;
        self.put_clock(n.clock);
    }

    // One step, where the span has a place or not, with the sample at `at` of those lent as the next, if there is one. Refusal 15.
    pub fn step(&mut self, samples: &[i32], at: usize, place: bool) -> Result<LineStep, Refusal>
        ensures answer { L.told_step result self.new ≡ L.step_outcome self.old place (head_of (drop at samples.now)) }
    {
        let mut n = numbers_in(self);
        let mut lent = Arrays {
            integrators: &mut self.cic.integrator_state,
            combs: &mut self.cic.comb_state,
            neighbours: &mut self.neighbours,
            taps: &self.fir.taps,
            fir_delay: &mut self.fir.delay,
            delays: &mut self.half_band.delays,
            held: &mut self.half_band.held,
            counts: &mut self.half_band.counts,
            delay: &mut self.resampler.delay,
            prototype: &self.resampler.prototype,
        };
        let step = step_lent(&mut n, &mut lent, samples, at, place);
        self.put_clock(n.clock);
        step
    }

    // Steps until stopped. The clause `demand3` is the whole claim over every list of feeds from an opening; alone it leaves a line open that no feeds lead to,
    // with `answer` and `span` it is exact. Refusal 15, and no other.
    pub fn feed(&mut self, samples: &[i32], out: &mut [f32]) -> Result<Moved, Refusal>
        ensures answer { told_on none_moved result self.new ≡ L.feed_outcome self.old samples.now (length out.old) }
        ensures span { out.new ≡ L.feed_span self.old samples.now out.old }
        ensures demand3 { Demand3 self.old samples.now out.old out.new (told_on none_moved result self.new) }
    {
        let mut n = numbers_in(self);
        let mut lent = Arrays {
            integrators: &mut self.cic.integrator_state,
            combs: &mut self.cic.comb_state,
            neighbours: &mut self.neighbours,
            taps: &self.fir.taps,
            fir_delay: &mut self.fir.delay,
            delays: &mut self.half_band.delays,
            held: &mut self.half_band.held,
            counts: &mut self.half_band.counts,
            delay: &mut self.resampler.delay,
            prototype: &self.resampler.prototype,
        };
        let moved = feed_lent(&mut n, &mut lent, samples, out);
        self.put_clock(n.clock);
        moved
    }

    // The fresh opening with the line's own settings, taps and prototype. Refusal 15, and no other: a valid line's own settings open.
    pub fn reset(&mut self) -> Result<(), Refusal>
        ensures answer { told_reset result self.new ≡ B.reset self.old }
        ensures accepted { B.valid self.old ≡ true → number_in result ≡ 0 }
    {
        let mut own = numbers_in(self);
        let mut lent = Places {
            integrators: &mut self.cic.integrator_state,
            combs: &mut self.cic.comb_state,
            neighbours: &mut self.neighbours,
            taps: &mut self.fir.taps,
            fir_delay: &mut self.fir.delay,
            delays: &mut self.half_band.delays,
            held: &mut self.half_band.held,
            counts: &mut self.half_band.counts,
            delay: &mut self.resampler.delay,
            prototype: &mut self.resampler.prototype,
        };
        let answer = reset_lent(&mut own, &mut lent);
        self.put_numbers(own);
        answer
    }
}
