// 01, section 3: the values of a block through the FIR.
ghost use Rattle.std.specs.Prelude.{◌≡◌, true, ◌≤◌, length};
ghost use Rattle.std.specs.Int.{w16};
ghost use Rattle.theory.specs.Tally.{held_sum};
ghost use Rattle.theory.specs.Sections.{outs};
ghost use Rattle.q15.specs.Fixed.{cut_count};
ghost use Rattle.q15.specs.FirDecimator.{summing};
ghost use Rattle.float.specs.PolyphaseOpening.{valid_in_line};
ghost use Rattle.chain.specs.Chain.{from3};
ghost use Rattle.chain.specs.Cuts.{most_cuts};
ghost use Rattle.chain.specs.Same.{Same};
ghost use Rattle.chain.specs.inner.Lending.{fir_in, resampler_in, from_fir_in, ThinnerStays};
ghost use Rattle.chain.specs.inner.Batched.{most_sums, Whole, Batched};

use crate::arrays::Arrays;
use crate::clock::{Clock, held_sum};
use crate::fixed::Fixed;
use crate::levels::levels_in;
use q15::fir_block_at;

// Values into the FIR, and what it makes, counted where it was cut, into the half-band stages. Answers how many places of the span are written.
pub(crate) fn filter(
    f: Fixed,
    clock: &mut Clock,
    lent: &mut Arrays<'_>,
    values: &mut [i16],
    out: &mut [f32],
) -> usize
    requires { length values.old ≤ most_sums }
    ensures within { (result ≤ length out.old) × (cut_count w16 (outs summing (fir_in f clock.old.wait lent.old) values.old) ≤ most_sums) }
    ensures same { Same lent.old lent.new }
    ensures stays { ThinnerStays lent.old lent.new }
    ensures batched { let before = from_fir_in f clock.old lent.old in
        valid_in_line (resampler_in f clock.old.mu lent.old) ≡ true → Whole from3 before values.old (length out.old)
        → Batched from3 before values.old out.old out.new (from_fir_in f clock.new lent.new) result }
    ensures cuts { let sums = outs summing (fir_in f clock.old.wait lent.old) values.old in
        clock.new.cuts ≡ held_sum most_cuts clock.old.cuts (cut_count w16 sums) }
    ensures counter { clock.new.sample_counter ≡ clock.old.sample_counter }
{
    let settings = f.settings.fir(f.tap_count);
    let at = fir_block_at(lent.fir_delay, lent.taps, settings, &mut clock.wait, values);
    clock.cuts = held_sum(clock.cuts, at.cuts as u32);
    let setting = f.settings.resampler();
    levels_in(
        f.settings.depth,
        setting,
        &mut clock.mu,
        lent.delays,
        lent.held,
        lent.counts,
        lent.delay,
        lent.prototype,
        &values[..at.written],
        out,
    )
}
