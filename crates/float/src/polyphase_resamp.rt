// 01, section 5: the polyphase resampler of f32 samples.
ghost use Rattle.std.specs.Prelude.{◌≡◌, true, false};
ghost use Rattle.refusal.specs.Outcome.{told_opened, told_on, told_reset, none_moved};
ghost use Rattle.float.specs.PolyphaseOpening as O;
ghost use Rattle.float.specs.PolyphaseResamp as R;
ghost use Rattle.float.specs.inner.Running as N;
ghost use Rattle.float.specs.PolyphaseWhole as W;

use crate::settings::{MOST_CELLS, MOST_PHASE_TAPS, Setting};
use q15::padding::padded;
use refusal::{Moved, Refusal};

// P and T, how the prototype is read, where the next output lies between two samples, how far it goes on with each output, the last T samples with the
// newest first, and the prototype with tap t of phase p at t × P + p. The numbers stand one by one and not as a `Setting`, as C holds them and callers name them.
#[derive(Clone, Copy)]
pub struct PolyphaseResampF32 {
    pub phases: usize,
    pub taps: usize,
    pub straight: bool,
    pub mu: f32,
    pub step: f32,
    pub delay: [f32; MOST_PHASE_TAPS],
    pub prototype: [f32; MOST_CELLS],
}

// An opening by the state's own setting, where its arrays lie; what else the state holds is not read. Refused by 12, 13, 14.
fn opened(mut state: PolyphaseResampF32, prototype: &[f32]) -> Result<PolyphaseResampF32, Refusal>
    ensures answer { told_opened O.zeros result ≡ O.opening state.straight state.phases state.taps prototype.now state.step }
    ensures whole { W.Opens state.straight state.phases state.taps prototype.now state.step (told_opened O.zeros result) }
{
    let mut setting = state.setting();
    setting.open(
        prototype,
        &mut state.mu,
        &mut state.delay,
        &mut state.prototype,
    )?;
    Ok(state)
}

impl PolyphaseResampF32 {
    // The state that C is given of a refused opening, and in the line of a resampler that is off. `Setting::clear` clears a state that there is, and this makes one.
    #[tactic(auto, unfolding(crate::specs::PolyphaseOpening::zeros))]
    pub fn zeros() -> Self
        ensures { result ≡ O.zeros }
    {
        PolyphaseResampF32 {
            phases: 0,
            taps: 0,
            straight: false,
            mu: 0.0,
            step: 0.0,
            delay: [0.0f32; MOST_PHASE_TAPS],
            prototype: [0.0f32; MOST_CELLS],
        }
    }

    // The state of an opening as a value: mu is 1.0, every delay zero, the prototype in front and zeros behind. It refuses nothing. `Setting::begin`, by which the openings
    // go, would not do: it keeps P × T places of a prototype, and this keeps all that there are places for.
    #[tactic(auto, unfolding(crate::specs::PolyphaseOpening::fresh))]
    pub fn fresh(setting: Setting, prototype: &[f32]) -> Self
        ensures { result ≡ O.fresh setting.straight setting.phases setting.phase_taps prototype.now setting.step }
    {
        let count = prototype.len().min(MOST_CELLS);
        PolyphaseResampF32 {
            phases: setting.phases,
            taps: setting.phase_taps,
            straight: setting.straight,
            mu: 1.0,
            step: setting.step,
            delay: [0.0f32; MOST_PHASE_TAPS],
            prototype: padded(&prototype[..count], 0.0),
        }
    }

    // What an opening sets of it.
    fn setting(&self) -> Setting
        ensures { result ≡ N.setting_of self.now }
    {
        Setting {
            phases: self.phases,
            phase_taps: self.taps,
            straight: self.straight,
            step: self.step,
        }
    }

    // A resampler of P phases and T taps, whose prototype has tap t of phase p at t × P + p, in wrapped phase. Refused by 12, 13, 14. The clause `whole` has outputs
    // for every list where the step is 1/64 to 64; with a smaller one they need not end.
    pub fn from_taps(
        phases: usize,
        taps: usize,
        prototype: &[f32],
        step: f32,
    ) -> Result<PolyphaseResampF32, Refusal>
        ensures answer { told_opened O.zeros result ≡ O.opening false phases taps prototype.now step }
        ensures whole { W.Opens false phases taps prototype.now step (told_opened O.zeros result) }
    {
        opened(
            PolyphaseResampF32 {
                phases,
                taps,
                straight: false,
                step,
                ..PolyphaseResampF32::zeros()
            },
            prototype,
        )
    }

    // `from_taps` in straight phase: the prototype is one row of P × T places, read at t × P + p and the next, and zero past its end.
    pub fn from_taps_straight(
        phases: usize,
        taps: usize,
        prototype: &[f32],
        step: f32,
    ) -> Result<PolyphaseResampF32, Refusal>
        ensures answer { told_opened O.zeros result ≡ O.opening true phases taps prototype.now step }
        ensures whole { W.Opens true phases taps prototype.now step (told_opened O.zeros result) }
    {
        opened(
            PolyphaseResampF32 {
                phases,
                taps,
                straight: true,
                step,
                ..PolyphaseResampF32::zeros()
            },
            prototype,
        )
    }

    // Samples of src become outputs in dst, as long as dst has a place. Refused by 15.
    pub fn process_block(&mut self, src: &[f32], dst: &mut [f32]) -> Result<Moved, Refusal>
        ensures answer { told_on none_moved result self.new ≡ R.block_outcome self.old src.now dst.old }
        ensures span { dst.new ≡ R.block_span self.old src.now dst.old }
        ensures kept { W.BlockKept self.old src.now dst.old dst.new (told_on none_moved result self.new) }
    {
        let setting = self.setting();
        setting.block(&mut self.mu, &mut self.delay, &self.prototype, src, dst)
    }

    // The sample x is consumed whatever mu is, and then what is due is written, as long as out has a place. Refused by 15. As a block it hands the state's parts on.
    pub fn push(&mut self, x: f32, out: &mut [f32]) -> Result<usize, Refusal>
        ensures answer { told_on 0 result self.new ≡ R.push_outcome self.old x out.old }
        ensures span { out.new ≡ R.push_span self.old x out.old }
        ensures kept { W.PushKept self.old x out.old out.new (told_on 0 result self.new) }
    {
        let setting = self.setting();
        setting.push(&mut self.mu, &mut self.delay, &self.prototype, x, out)
    }

    // The fresh opening with the state's own settings and prototype. Refused by 15: the state stays.
    pub fn reset(&mut self) -> Result<(), Refusal>
        ensures answer { told_reset result self.new ≡ O.reset self.old }
        ensures whole { W.Resets self.old (told_reset result self.new) }
    {
        let setting = self.setting();
        setting.reset(&mut self.mu, &mut self.delay, &mut self.prototype)
    }
}
