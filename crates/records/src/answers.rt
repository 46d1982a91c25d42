// The comparison of answers: 01's number first, 0 for none, and then what the call hands over, zeros where it was refused.
ghost use Rattle.std.specs.Prelude.{◌≡◌};
ghost use Rattle.refusal.specs.Outcome.{number_in, value_in};
ghost use Rattle.refusal.specs.Table.{number_of};
ghost use Rattle.records.specs.Comparison.{Compares, after};

use crate::record::Words;
use crate::value::Value;
use refusal::Refusal;

impl Words<'_> {
    // The number, and then the value.
    fn same_numbered<T: Value>(&mut self, number: u8, value: &T) -> bool
        ensures { Compares result self.old.left.now self.new.left.now
            (T.place value.now self.old.left.now (after self.old.left.now 0 number)) }
    {
        self.same(u32::from(number)) && value.is_same(self)
    }

    pub fn same_answer<T: Value>(&mut self, answer: Result<T, Refusal>) -> bool
        ensures { Compares result self.old.left.now self.new.left.now
            (T.place (value_in T.zeros answer) self.old.left.now (after self.old.left.now 0 (number_in answer))) }
    {
        match answer {
            Ok(value) => self.same_numbered(0, &value),
            Err(refusal) => self.same_numbered(refusal.number(), &T::zeros()),
        }
    }

    pub fn same_refusal(&mut self, refusal: Refusal) -> bool
        ensures { Compares result self.old.left.now self.new.left.now (after self.old.left.now 0 (number_of refusal)) }
    {
        self.same_numbered(refusal.number(), &())
    }
}
