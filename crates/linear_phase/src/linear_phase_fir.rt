// 02, §2: linear-phase FIR filters of even or odd length, symmetric or antisymmetric, whose two halves share M taps.
ghost use Rattle.std.specs.Prelude.{◌≡◌, true, false, length};
ghost use Rattle.refusal.specs.Outcome.{told, told_on, told_opened, told_reset, number_in};
ghost use Rattle.float.specs.F32.{zero32};
ghost use Rattle.linear_phase.specs.LinearPhaseFir as P;

use crate::kinds::{Half, Kind};
use crate::limits::{LINEAR_PHASE_DELAYS, MOST_LINEAR_PHASE_TAPS};
use refusal::Refusal;
use refusal::rows::outside;

// A number beside an array, and two booleans: so C holds them, in fixed memory.
#[derive(Drop)]
pub struct LinearPhaseFir {
    // The taps of one half.
    pub m: usize,
    // A length of 2m + 1 with a centre sample; else 2m.
    pub odd: bool,
    // The earlier sample of a pair is subtracted; else it is added.
    pub antisymmetric: bool,
    // m of them in front, the outermost pair's first.
    pub taps: [f32; MOST_LINEAR_PHASE_TAPS],
    // The last 2m - 1 samples in front, 2m for odd, the newest at their end.
    pub delay: [f32; LINEAR_PHASE_DELAYS],
}

// One sample, the arrays lent apart as C holds them. Refusal 15.
pub fn process_at(
    m: usize,
    kind: Kind,
    taps: &[f32; MOST_LINEAR_PHASE_TAPS],
    delay: &mut [f32; LINEAR_PHASE_DELAYS],
    x: f32,
) -> Result<f32, Refusal>
    ensures answer { let before = P.phase_of m kind.odd kind.antisymmetric taps.now delay.old in
        let after = P.phase_of m kind.odd kind.antisymmetric taps.now delay.new in
        told_on zero32 result after ≡ P.phase_step before x }
{
    Ok(Half::of(m, kind)?.process(taps, delay, x))
}

// A block in place, the arrays lent apart. Refusal 15.
pub fn inplace_at(
    m: usize,
    kind: Kind,
    taps: &[f32; MOST_LINEAR_PHASE_TAPS],
    delay: &mut [f32; LINEAR_PHASE_DELAYS],
    span: &mut [f32],
) -> Result<usize, Refusal>
    ensures answer { let before = P.phase_of m kind.odd kind.antisymmetric taps.now delay.old in
        let after = P.phase_of m kind.odd kind.antisymmetric taps.now delay.new in
        told_on 0 result after ≡ P.phase_inplace before span.old }
    ensures span { let before = P.phase_of m kind.odd kind.antisymmetric taps.now delay.old in
        span.new ≡ P.phase_inplace_span before span.old }
{
    let half = Half::of(m, kind)?;
    half.inplace(taps, delay, span);
    Ok(span.len())
}

// A block, the arrays lent apart. Refusals 15, 20.
#[tactic(auto, unfolding(crate::specs::LinearPhaseFir::lengths_differ))]
pub fn block_at(
    m: usize,
    kind: Kind,
    taps: &[f32; MOST_LINEAR_PHASE_TAPS],
    delay: &mut [f32; LINEAR_PHASE_DELAYS],
    src: &[f32],
    span: &mut [f32],
) -> Result<usize, Refusal>
    ensures answer { let before = P.phase_of m kind.odd kind.antisymmetric taps.now delay.old in
        let after = P.phase_of m kind.odd kind.antisymmetric taps.now delay.new in
        told_on 0 result after ≡ P.phase_block before src.now (length span.old) }
    ensures span { let before = P.phase_of m kind.odd kind.antisymmetric taps.now delay.old in
        span.new ≡ P.phase_span before src.now span.old }
{
    let half = Half::of(m, kind)?;
    if src.len() != span.len() {
        return Err(Refusal::Lengths);
    }
    half.block(taps, delay, src, span);
    Ok(span.len())
}

// An opening of the lent kind with the taps `own`, one half of them, in places that are lent apart. Refusal 19: not 1 to 23 of them; all that is lent is zeros and noes then.
#[tactic(auto, unfolding(refusal::specs::Rows::outside))]
pub fn open_at(
    kind: &mut Kind,
    own: &[f32],
    m: &mut usize,
    taps: &mut [f32; MOST_LINEAR_PHASE_TAPS],
    delay: &mut [f32; LINEAR_PHASE_DELAYS],
) -> Result<(), Refusal>
    ensures answer { let after = P.phase_of m.new kind.new.odd kind.new.antisymmetric taps.new delay.new in
        told_reset result after ≡ P.phase_opening kind.old.odd kind.old.antisymmetric own.now }
    ensures streams { let after = P.phase_of m.new kind.new.odd kind.new.antisymmetric taps.new delay.new in
        number_in result ≡ 0 → P.PhaseStreams kind.old.odd kind.old.antisymmetric own.now after }
{
    *taps = [0.0f32; MOST_LINEAR_PHASE_TAPS];
    *delay = [0.0f32; LINEAR_PHASE_DELAYS];
    if outside(own.len(), 1, MOST_LINEAR_PHASE_TAPS) {
        *m = 0;
        kind.odd = false;
        kind.antisymmetric = false;
        return Err(Refusal::PhaseTaps);
    }
    *m = own.len();
    taps[..own.len()].copy_from_slice(own);
    Ok(())
}

// A fresh opening with the lent taps, of the same kind, where they and the delay lie. Refusal 15: both stay.
pub fn reset_at(
    m: usize,
    kind: Kind,
    taps: &mut [f32; MOST_LINEAR_PHASE_TAPS],
    delay: &mut [f32; LINEAR_PHASE_DELAYS],
) -> Result<(), Refusal>
    ensures answer { let before = P.phase_of m kind.odd kind.antisymmetric taps.old delay.old in
        let after = P.phase_of m kind.odd kind.antisymmetric taps.new delay.new in
        told_reset result after ≡ P.phase_reset before }
{
    Half::of(m, kind)?;
    taps[m..].fill(0.0);
    delay.fill(0.0);
    Ok(())
}

impl LinearPhaseFir {
    // An opening with the lent taps, one half of them. Refusal 19: not 1 to 23 of them.
    pub fn new(odd: bool, antisymmetric: bool, taps: &[f32]) -> Result<LinearPhaseFir, Refusal>
        ensures answer { told_opened P.phase_none result ≡ P.phase_opening odd antisymmetric taps.now }
        ensures streams { number_in result ≡ 0 → P.PhaseStreams odd antisymmetric taps.now (told_opened P.phase_none result).state }
    {
        let mut kind = Kind { odd, antisymmetric };
        let mut state = LinearPhaseFir::zeros();
        open_at(
            &mut kind,
            taps,
            &mut state.m,
            &mut state.taps,
            &mut state.delay,
        )?;
        state.odd = kind.odd;
        state.antisymmetric = kind.antisymmetric;
        Ok(state)
    }

    // What a refused opening leaves.
    pub fn zeros() -> LinearPhaseFir
        ensures { result ≡ P.phase_none }
    {
        LinearPhaseFir {
            m: 0,
            odd: false,
            antisymmetric: false,
            taps: [0.0f32; MOST_LINEAR_PHASE_TAPS],
            delay: [0.0f32; LINEAR_PHASE_DELAYS],
        }
    }

    // Type I: odd length, symmetric, a centre tap of one.
    pub fn odd_symmetric(taps: &[f32]) -> Result<LinearPhaseFir, Refusal>
        ensures answer { told_opened P.phase_none result ≡ P.phase_opening true false taps.now }
        ensures streams { number_in result ≡ 0 → P.PhaseStreams true false taps.now (told_opened P.phase_none result).state }
    {
        LinearPhaseFir::new(true, false, taps)
    }

    // Type II: even length, symmetric.
    pub fn even_symmetric(taps: &[f32]) -> Result<LinearPhaseFir, Refusal>
        ensures answer { told_opened P.phase_none result ≡ P.phase_opening false false taps.now }
        ensures streams { number_in result ≡ 0 → P.PhaseStreams false false taps.now (told_opened P.phase_none result).state }
    {
        LinearPhaseFir::new(false, false, taps)
    }

    // Type III: odd length, antisymmetric, a centre tap of zero.
    pub fn odd_antisymmetric(taps: &[f32]) -> Result<LinearPhaseFir, Refusal>
        ensures answer { told_opened P.phase_none result ≡ P.phase_opening true true taps.now }
        ensures streams { number_in result ≡ 0 → P.PhaseStreams true true taps.now (told_opened P.phase_none result).state }
    {
        LinearPhaseFir::new(true, true, taps)
    }

    // Type IV: even length, antisymmetric.
    pub fn even_antisymmetric(taps: &[f32]) -> Result<LinearPhaseFir, Refusal>
        ensures answer { told_opened P.phase_none result ≡ P.phase_opening false true taps.now }
        ensures streams { number_in result ≡ 0 → P.PhaseStreams false true taps.now (told_opened P.phase_none result).state }
    {
        LinearPhaseFir::new(false, true, taps)
    }

    fn kind(&self) -> Kind
        ensures { (result.odd ≡ self.now.odd) × (result.antisymmetric ≡ self.now.antisymmetric) }
    {
        Kind {
            odd: self.odd,
            antisymmetric: self.antisymmetric,
        }
    }

    // Length of the response less one, the Rust's LEN. Refusal 15.
    pub fn response_length(&self) -> Result<usize, Refusal>
        ensures answer { told 0 result ≡ P.phase_response_length self.now }
    {
        let half = Half::of(self.m, self.kind())?;
        Ok(half.kind.reach(half.m))
    }

    // One sample. Refusal 15.
    pub fn process(&mut self, x: f32) -> Result<f32, Refusal>
        ensures answer { told_on zero32 result self.new ≡ P.phase_step self.old x }
    {
        let kind = self.kind();
        process_at(self.m, kind, &self.taps, &mut self.delay, x)
    }

    // The samples of the span, their outputs in their places. Refusal 15. As one sample it hands the state's parts on.
    pub fn inplace(&mut self, span: &mut [f32]) -> Result<usize, Refusal>
        ensures answer { told_on 0 result self.new ≡ P.phase_inplace self.old span.old }
        ensures span { span.new ≡ P.phase_inplace_span self.old span.old }
    {
        let kind = self.kind();
        inplace_at(self.m, kind, &self.taps, &mut self.delay, span)
    }

    // The samples of src, an output of each in the span. Refusals 15, 20.
    pub fn block(&mut self, src: &[f32], span: &mut [f32]) -> Result<usize, Refusal>
        ensures answer { told_on 0 result self.new ≡ P.phase_block self.old src.now (length span.old) }
        ensures span { span.new ≡ P.phase_span self.old src.now span.old }
    {
        let kind = self.kind();
        block_at(self.m, kind, &self.taps, &mut self.delay, src, span)
    }

    // A fresh opening with the same taps, of the same kind. Refusal 15: the state stays.
    pub fn reset(&mut self) -> Result<(), Refusal>
        ensures answer { told_reset result self.new ≡ P.phase_reset self.old }
    {
        let kind = self.kind();
        reset_at(self.m, kind, &mut self.taps, &mut self.delay)
    }
}
