// The words of a record that are left, read from the front, and the comparison of answers with them. tests/oracle/README.md has the format.
ghost use Rattle.std.specs.Prelude.{◌≡◌, ◌+◌, ◌*◌, ◌^◌, ◌<◌, ◌≤◌, [], take, drop, length, IfSome, IsTrue, ◌↔◌, if◌then◌else◌};
ghost use Rattle.records.specs.Comparison.{Compares, after, after_if, after_long, word_at};

use crate::element::Element;
use crate::lent::Lent;

#[derive(Clone, Copy)]
pub struct Words<'a> {
    pub left: &'a [u32],
}

impl<'a> Words<'a> {
    // No words, which read as zeros.
    pub fn none() -> Words<'a>
        ensures { result.left.now ≡ [] }
    {
        Words { left: &[] }
    }

    // The next word, 0 past the end.
    pub fn word(&mut self) -> u32
        ensures value { result ≡ word_at self.old.left.now 0 }
        ensures left { self.new.left.now ≡ drop 1 self.old.left.now }
    {
        let Some((word, left)) = self.left.split_first() else {
            return 0;
        };
        self.left = left;
        *word
    }

    // What the next word stands for.
    pub fn value<T: Element>(&mut self) -> T
        ensures value { result ≡ T.meant (word_at self.old.left.now 0) }
        ensures left { self.new.left.now ≡ drop 1 self.old.left.now }
    {
        T::from_word(self.word())
    }

    // What the next words stand for, one for each place of an array.
    pub fn values<T: Element, const N: usize>(&mut self) -> [T; N]
        ensures { self.new.left.now ≡ drop N self.old.left.now }
    {
        let words = self.first(N);
        std::array::from_fn(|i| T::from_word(words.get(i).copied().unwrap_or(0)))
    }

    // A usize or a u64: the low word, then the high one.
    pub fn long(&mut self) -> usize
        ensures value { result ≡ word_at self.old.left.now 0 + word_at self.old.left.now 1 * 4294967296 }
        ensures left { self.new.left.now ≡ drop 2 self.old.left.now }
    {
        let low = self.word() as usize;
        let high = self.word() as usize;
        low + high * HIGH
    }

    pub fn longs<const N: usize>(&mut self) -> [usize; N] {
        std::array::from_fn(|_| self.long())
    }

    // The next `count` words, or all that are left.
    pub fn first(&mut self, count: usize) -> &'a [u32]
        ensures value { result.now ≡ take count self.old.left.now }
        ensures left { self.new.left.now ≡ drop count self.old.left.now }
        ensures fits { length self.old.left.now < 2 ^ 63 }
    {
        let (first, left) = self.left.split_at(count.min(self.left.len()));
        self.left = left;
        first
    }

    // A slice that the record lends.
    pub fn slice(&mut self) -> Lent<'a>
        ensures length { result.length ≡ word_at self.old.left.now 0 }
        ensures left { self.new.left.now ≡ drop (4 + word_at self.old.left.now 3) self.old.left.now }
    {
        let length = self.word() as usize;
        let pattern = self.word();
        let stride = self.word();
        let count = self.word() as usize;
        Lent {
            length,
            pattern,
            stride,
            listed: self.first(count),
        }
    }

    // A record agrees where no word is left in the end.
    pub fn is_empty(&self) -> bool
        ensures { IsTrue result ↔ (self.now.left.now ≡ []) }
    {
        self.left.is_empty()
    }

    // Whether the next word is x, which is then behind: no PartialEq, since it goes on in the record.
    pub fn same<T: Element>(&mut self, x: T) -> bool
        ensures { Compares result self.old.left.now self.new.left.now
            (after_if (T.recorded x (word_at self.old.left.now 0)) self.old.left.now 0) }
    {
        match self.first(1) {
            [word] => x.is_recorded_as(*word),
            _ => false,
        }
    }

    // Whether something is so, 1 or 0.
    pub fn same_flag(&mut self, x: bool) -> bool
        ensures { Compares result self.old.left.now self.new.left.now
            (after self.old.left.now 0 (if x then 1 else 0)) }
    {
        self.same(u32::from(x))
    }

    pub fn same_long(&mut self, x: usize) -> bool
        ensures { Compares result self.old.left.now self.new.left.now (after_long self.old.left.now 0 x) }
    {
        self.same((x % HIGH) as u32) && self.same((x / HIGH) as u32)
    }

    pub fn same_values<T: Element>(&mut self, values: &[T]) -> bool {
        values.iter().all(|x| self.same(*x))
    }

    pub fn same_longs(&mut self, longs: &[usize]) -> bool {
        longs.iter().all(|x| self.same_long(*x))
    }

    // A count, and so many of the places: how many, if these agree.
    fn same_listed<T: Element>(&mut self, places: &[T]) -> Option<usize>
        ensures { IfSome result (λ listed. (listed ≤ length places.now) × (listed ≡ word_at self.old.left.now 0)) }
    {
        if self.is_empty() {
            return None;
        }
        let listed = self.word() as usize;
        if places.len() < listed || !self.same_values(&places[..listed]) {
            return None;
        }
        Some(listed)
    }

    // An array after the call: a count, so many places, and those behind them as they were before.
    pub fn same_places<T: Element>(&mut self, places: &[T], before: &[T]) -> bool
        ensures lengths { IsTrue result → length before.now ≡ length places.now }
        ensures listed { IsTrue result → word_at self.old.left.now 0 ≤ length places.now }
    {
        if before.len() != places.len() {
            return false;
        }
        let Some(listed) = self.same_listed(places) else {
            return false;
        };
        places[listed..]
            .iter()
            .zip(&before[listed..])
            .all(|(x, y)| x.is_same(*y))
    }

    // A span after the call: a count, so many places, and those behind them as they were lent.
    pub fn same_span<T: Element>(&mut self, places: &[T], lent: Lent<'_>) -> bool
        ensures { IsTrue result → word_at self.old.left.now 0 ≤ length places.now }
    {
        let Some(listed) = self.same_listed(places) else {
            return false;
        };
        places
            .iter()
            .enumerate()
            .skip(listed)
            .all(|(i, x)| x.is_same(lent.element(i)))
    }
}

// The weight of the high word.
const HIGH: usize = 4294967296;
