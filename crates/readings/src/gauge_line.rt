// The reading of section 6, the second feed lending what the first left.
use crate::print::{hundredths, spaced, words};
use line::{Line, Settings, next_piece};
use nonrecursive::Thinning;
use refusal::{Moved, Refusal};
use std::io;
use std::io::Write;

// The first so many levels of a span, by `take`: a part `span[..written]` would want a bound of a count that was only told.
fn levels<W: Write>(out: &mut W, span: &[f32], written: usize) -> io::Result<()> {
    for level in span.iter().take(written) {
        hundredths(out, *level)?;
    }
    Ok(())
}

// Prints what a feed did, and answers how many samples it took.
fn shown<W: Write>(out: &mut W, counts: Result<Moved, Refusal>, span: &[f32]) -> io::Result<usize> {
    match counts {
        Err(q) => {
            words(out, " refused")?;
            spaced(out, q.number())?;
            Ok(0)
        }
        Ok(Moved { taken, written }) => {
            words(out, " took")?;
            spaced(out, taken)?;
            words(out, ", wrote")?;
            levels(out, span, written)?;
            Ok(taken)
        }
    }
}

pub(crate) fn readings<W: Write>(out: &mut W) -> io::Result<()> {
    words(out, "Line N=1 r=1, P=2 T=1, step 0.5, samples 16384, 0:")?;
    let settings = Settings {
        stages: 1,
        r: 1,
        factor: 0,
        depth: 0,
        phases: 2,
        phase_taps: 1,
        straight: false,
        step: 0.5,
        thinning: Thinning::Integrators,
    };
    let samples = [16384, 0];
    let Ok(mut line) = Line::open(settings, &[], &[1.0, 0.0]) else {
        return words(out, " refused\n");
    };
    let mut one = [0.0f32; 1];
    let taken = shown(out, line.feed(&samples, &mut one), &one)?;
    words(out, ";")?;
    let rest = next_piece(&samples, taken, &[]);
    let mut three = [0.0f32; 3];
    shown(out, line.feed(rest, &mut three), &three)?;
    words(out, "\n")
}
