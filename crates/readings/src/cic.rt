// The readings of section 1.
use crate::print::{spaced, words};
use integer::CicDecimator;
use refusal::Refusal;
use std::io;
use std::io::Write;

fn shown<W: Write>(out: &mut W, answer: Result<Option<i32>, Refusal>) -> io::Result<()> {
    match answer {
        Ok(None) => Ok(()),
        Ok(Some(y)) => spaced(out, y),
        Err(q) => {
            words(out, " refused")?;
            spaced(out, q.number())
        }
    }
}

// The sums of the samples, from a fresh decimator, which makes them by `step`.
fn sums<W: Write, F>(
    out: &mut W,
    name: &str,
    opened: Result<CicDecimator, Refusal>,
    samples: &[i32],
    step: F,
) -> io::Result<()>
where
    F: Fn(&mut CicDecimator, i32) -> Result<Option<i32>, Refusal>,
    requires { F.IsAlwaysCallable step }
{
    words(out, name)?;
    let Ok(mut d) = opened else {
        return words(out, " refused\n");
    };
    for x in samples {
        shown(out, step(&mut d, *x))?;
    }
    words(out, "\n")
}

fn bits<W: Write>(
    out: &mut W,
    name: &str,
    opened: Result<CicDecimator, Refusal>,
) -> io::Result<()> {
    words(out, name)?;
    match opened.and_then(|d| d.gain_bits()) {
        Ok(g) => spaced(out, g)?,
        Err(_) => words(out, " refused")?,
    }
    words(out, "\n")
}

pub(crate) fn readings<W: Write>(out: &mut W) -> io::Result<()> {
    let unscaled = CicDecimator::process_sample;
    let scaled = CicDecimator::process_sample_scaled;
    let counting = [1, 2, 3, 4, 5, 6, 7, 8];
    sums(
        out,
        "N=1 r=4, 1 to 8:",
        CicDecimator::new(1, 4),
        &counting,
        unscaled,
    )?;
    sums(
        out,
        "N=2 r=2, 1 to 4:",
        CicDecimator::new(2, 2),
        &counting[..4],
        unscaled,
    )?;
    let past_the_end = [i32::MAX, 1, 0, 0];
    sums(
        out,
        "N=1 r=2, past the end of the range:",
        CicDecimator::new(1, 2),
        &past_the_end,
        unscaled,
    )?;
    bits(out, "N=3 r=5, gain bits:", CicDecimator::new(3, 5))?;
    bits(out, "N=8 r=14, gain bits:", CicDecimator::new(8, 14))?;
    bits(out, "N=8 r=15, gain bits:", CicDecimator::new(8, 15))?;
    sums(
        out,
        "N=8 r=15, scaled:",
        CicDecimator::new(8, 15),
        &[1],
        scaled,
    )?;
    sums(
        out,
        "N=1 r=3, scaled 3, 3, 3:",
        CicDecimator::new(1, 3),
        &[3, 3, 3],
        scaled,
    )?;
    sums(
        out,
        "N=1 r=2, scaled -1, 0:",
        CicDecimator::new(1, 2),
        &[-1, 0],
        scaled,
    )
}
