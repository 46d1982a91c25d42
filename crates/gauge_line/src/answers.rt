// The answers of the layers as numbers: a refusal's number, 0 for none, and the values, 0 where there are none.
ghost use Rattle.std.specs.Prelude.{◌≡◌, None};
ghost use Rattle.refusal.specs.Outcome.{number_in, value_in};
ghost use Rattle.sheet.specs.Sheet.{no_place};
ghost use Rattle.line.specs.Line as L;
ghost use Rattle.gauge_line.specs.Crossing.{moves};
ghost use Rattle.gauge_line.specs.inner.Numbers.{made_in};

use line::LineStep;
use refusal::Refusal;
use sheet::Place;

// The number of any answer: that of its refusal, 0 where there is none.
pub(crate) fn number<T>(answer: &Result<T, Refusal>) -> usize
    ensures { result ≡ number_in answer.now }
{
    match answer {
        Ok(_) => 0,
        Err(why) => usize::from(why.number()),
    }
}

// An output that may be missing, of an answer that may be a refusal: none in either case.
pub(crate) fn output<T: Drop>(answer: Result<Option<T>, Refusal>) -> Option<T>
    ensures { result ≡ value_in None answer }
{
    answer.unwrap_or(None)
}

// How many outputs there are, none or one.
pub(crate) fn made<T>(output: &Option<T>) -> usize
    ensures { result ≡ made_in output.now }
{
    usize::from(output.is_some())
}

// Where an entry of a sheet stands: nowhere, where it is refused.
pub(crate) fn placed(answer: Result<Place, Refusal>) -> Place
    ensures { result ≡ value_in no_place answer }
{
    answer.unwrap_or(Place { offset: 0, size: 0 })
}

// What a step of the line moved, and the output, 0 where it wrote none.
pub(crate) fn step_moves(answer: Result<LineStep, Refusal>) -> (usize, usize, f32)
    ensures { (result.0, (result.1, result.2)) ≡ moves (L.event_in answer) }
{
    match answer {
        Ok(LineStep::Took) => (1, 0, 0.0),
        Ok(LineStep::Wrote(y)) => (0, 1, y),
        Ok(LineStep::TookAndWrote(y)) => (1, 1, y),
        Ok(LineStep::Stopped) => (0, 0, 0.0),
        Err(_) => (0, 0, 0.0),
    }
}
