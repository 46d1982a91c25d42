// How many records were compared, and how many differ.
ghost use Rattle.std.specs.Prelude.{◌≡◌, ◌+◌, ◌%◌, ◌^◌, ◌<◌, ◌++◌, IsTrue, IsFalse, OnOk, codes};
ghost use Rattle.std.specs.Io.KnownBytes.{Appends};
ghost use Rattle.replay.specs.Report.{eight_digits, count_text, difference_text};

use std::io;
use std::io::Write;

#[derive(Default, Drop)]
pub(crate) struct Tally {
    pub records: u64,
    pub differences: u64,
    // The record, counted from 1, and the operation of the first difference, 0 where there is none. An Option would say a second time whether there is one.
    pub first: u64,
    pub operation: u32,
}

impl Tally {
    pub(crate) fn counted(mut self, operation: u32, same: bool) -> Tally
        ensures records { result.records ≡ (self.records + 1) % 2 ^ 64 }
        ensures agrees { IsTrue same → result.differences ≡ self.differences }
        ensures differs { IsFalse same → result.differences ≡ (self.differences + 1) % 2 ^ 64 }
        ensures first { IsFalse same → self.differences ≡ 0 → result.first ≡ result.records }
        ensures first_operation { IsFalse same → self.differences ≡ 0 → result.operation ≡ operation }
        ensures kept_first { 0 < self.differences → result.first ≡ self.first }
        ensures kept_operation { 0 < self.differences → result.operation ≡ self.operation }
    {
        self.records = self.records.wrapping_add(1);
        if same {
            return self;
        }
        if self.differences == 0 {
            self.first = self.records;
            self.operation = operation;
        }
        self.differences = self.differences.wrapping_add(1);
        self
    }

    // How many records there were, and how many differ.
    fn count<W: Write>(&self, out: &mut W) -> io::Result<()>
        ensures { OnOk result (Appends (W.contents out.old) (W.contents out.new)
            (count_text self.now.records self.now.differences)) }
    {
        let Tally {
            records,
            differences,
            ..
        } = self;
        writeln!(out, "{records} records, {differences} differences")
    }

    // An operation's code and the line's end.
    fn code<W: Write>(out: &mut W, operation: u32) -> io::Result<()>
        ensures { OnOk result (Appends (W.contents out.old) (W.contents out.new) (eight_digits operation ++ codes "\n")) }
    {
        writeln!(out, "{operation:08x}")
    }

    fn difference<W: Write>(&self, out: &mut W) -> io::Result<()>
        ensures { OnOk result (Appends (W.contents out.old) (W.contents out.new)
            (difference_text self.now.first self.now.operation)) }
    {
        let Tally {
            first,
            operation,
            ..
        } = self;
        write!(out, "first difference: record {first}, operation ")?;
        Tally::code(out, *operation)
    }

    pub(crate) fn report<W: Write>(self, out: &mut W) -> io::Result<()>
        ensures same { self.differences ≡ 0 → OnOk result (Appends (W.contents out.old) (W.contents out.new)
            (count_text self.records 0)) }
        ensures differs { 0 < self.differences → OnOk result (Appends (W.contents out.old) (W.contents out.new)
            (count_text self.records self.differences ++ difference_text self.first self.operation)) }
    {
        self.count(out)?;
        if self.differences > 0 {
            return self.difference(out);
        }
        Ok(())
    }
}
