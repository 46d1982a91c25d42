// The reading of section 4.
use crate::print::{hundredths, words};
use half_band::HbfDec;
use refusal::Refusal;
use std::io;
use std::io::Write;

fn shown<W: Write>(out: &mut W, made: Result<f32, Refusal>) -> io::Result<()> {
    match made {
        Ok(y) => hundredths(out, y),
        Err(_) => words(out, " refused"),
    }
}

pub(crate) fn readings<W: Write>(out: &mut W) -> io::Result<()> {
    words(out, "Half-band M=1 tap 0.5, pairs 1, 0 and 0, 0:")?;
    let Ok(mut d) = HbfDec::new(&[0.5]) else {
        return words(out, " refused\n");
    };
    shown(out, d.process_pair(1.0, 0.0))?;
    shown(out, d.process_pair(0.0, 0.0))?;
    words(out, "\n")
}
