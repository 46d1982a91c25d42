// 01's gauge-board readings, run through the converters and printed.
#![tactic(auto)]

mod cic;
mod gauge_line;
mod hbf;
mod print;

use std::io;

fn main(rt: HostRuntime) -> io::Result<()> {
    let mut out = io::writer(&rt);
    cic::readings(&mut out)?;
    hbf::readings(&mut out)?;
    gauge_line::readings(&mut out)
}
