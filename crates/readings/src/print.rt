// Words and numbers, onto a writer.
ghost use Rattle.std.specs.Prelude.{◌/◌, ◌%◌, ◌++◌, IfSome, OnOk, codes, decimal};
ghost use Rattle.std.specs.Io.KnownBytes.{Appends};

use float::f32_to_usize_saturating;
use std::fmt::Display;
use std::io;
use std::io::Write;

pub(crate) fn words<W: Write>(out: &mut W, text: &str) -> io::Result<()>
    ensures { OnOk result (Appends (W.contents out.old) (W.contents out.new) text.now) }
{
    out.write_all(text.as_bytes())
}

// A space and a value.
pub(crate) fn spaced<W: Write, T: Display + Drop>(out: &mut W, x: T) -> io::Result<()>
    ensures { IfSome (T.output x) (λ text. OnOk result (Appends (W.contents out.old) (W.contents out.new) (codes " " ++ text))) }
{
    write!(out, " {x}")
}

// A number of hundredths, to two places.
fn places<W: Write>(out: &mut W, n: u64) -> io::Result<()>
    ensures { OnOk result (Appends (W.contents out.old) (W.contents out.new)
        (decimal (n / 100) ++ codes "." ++ decimal (n / 10 % 10) ++ decimal (n % 10))) }
{
    let whole = n / 100;
    let rest = n % 100;
    write!(out, "{whole}.{rest:02}")
}

// A space and a level to two places.
pub(crate) fn hundredths<W: Write>(out: &mut W, x: f32) -> io::Result<()> {
    words(out, if x < 0.0 { " -" } else { " " })?;
    places(out, f32_to_usize_saturating(x.abs() * 100.0) as u64)
}
