// The four kinds of filters, how far a delay reaches back, a filter inside its limits without and with its taps, and a pair of samples as far from a window's two ends.
ghost use Rattle.std.specs.Prelude.{◌≡◌, ◌*◌, ◌≤◌, cond, length, IfOk};
ghost use Rattle.refusal.specs.Outcome.{number_in};
ghost use Rattle.refusal.specs.Rows as R;
ghost use Rattle.linear_phase.specs.LinearPhase as P;
ghost use Rattle.linear_phase.specs.Windows.{has_centre};

use crate::limits::MOST_LINEAR_PHASE_TAPS;
use refusal::Refusal;
use refusal::rows::outside;

// Of odd length, with a centre sample, or of even; the earlier sample of a pair subtracted, or added. Two booleans, not one enum of four: so the state that C holds has them, and the definitions.
#[derive(Clone, Copy)]
pub struct Kind {
    pub odd: bool,
    pub antisymmetric: bool,
}

impl Kind {
    // Length of the delay, the Rust's LEN: one less than that of the filter.
    #[tactic(auto, unfolding(crate::specs::LinearPhase::reach))]
    pub(crate) fn reach(self, m: usize) -> usize
        requires { (1 ≤ m) × (m ≤ 23) }
        ensures value { result ≡ P.reach self.odd m }
        ensures bounds { (m ≤ result) × (result ≤ 2 * m) }
    {
        if self.odd { 2 * m } else { 2 * m - 1 }
    }

    // Whether the centre sample is added.
    #[tactic(auto, unfolding(crate::specs::Windows::has_centre))]
    pub(crate) fn has_centre(self) -> bool
        ensures { result ≡ has_centre self.odd self.antisymmetric }
    {
        self.odd && !self.antisymmetric
    }
}

// How many taps one half has, inside the limits, and the filter's kind.
#[derive(Clone, Copy)]
pub(crate) struct Half {
    pub m: usize,
    pub kind: Kind,
    ghost inside: { (1 ≤ m) × (m ≤ 23) },
}

impl Half {
    // What a state's own numbers give. Refusal 15.
    #[inline(always)]
    pub(crate) fn of(m: usize, kind: Kind) -> Result<Half, Refusal>
        ensures number { number_in result ≡ cond (R.outside m 1 23) 15 0 }
        ensures half { IfOk result (λ h. (h.m ≡ m) × (h.kind ≡ kind)) }
    {
        if outside(m, 1, MOST_LINEAR_PHASE_TAPS) {
            return Err(Refusal::State);
        }
        Ok(Half { m, kind })
    }
}

// A filter inside its limits: the taps of one half, the length of its delay, and its kind.
#[derive(Clone, Copy)]
pub(crate) struct Folded<'a> {
    pub taps: &'a [f32],
    pub long: usize,
    pub kind: Kind,
    ghost inside: { (1 ≤ length taps.now) × (length taps.now ≤ 23) },
    ghost reach: { (length taps.now ≤ long) × (long ≤ 2 * length taps.now) × (long ≡ P.reach kind.odd (length taps.now)) },
}

impl<'a> Folded<'a> {
    #[inline(always)]
    pub(crate) fn of(taps: &'a [f32], kind: Kind) -> Folded<'a>
        requires { (1 ≤ length taps.now) × (length taps.now ≤ 23) }
        ensures { (result.taps.now ≡ taps.now) × (result.kind ≡ kind) }
    {
        Folded {
            taps,
            long: kind.reach(taps.len()),
            kind,
        }
    }
}

// new ± old
#[tactic(auto, unfolding(crate::specs::LinearPhase::pair))]
pub(crate) fn pair(minus: bool, new: f32, old: f32) -> f32
    ensures { result ≡ P.pair minus new old }
{
    if minus { new - old } else { new + old }
}
