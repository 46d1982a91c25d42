// 02, requests 1 and 9: the count and the pairs in front of a sheet, and the order that they are to stand in.
ghost use Rattle.std.specs.Prelude.{◌≡◌, ◌&&◌, ◌+◌, ◌*◌, ◌≤◌, ◌<◌, leb, length};
ghost use Rattle.refusal.specs.Outcome.{number_in};
ghost use Rattle.sheet.specs.Sheet as S;
ghost use Rattle.sheet.specs.inner.Passed.{may_follow, where_full};

use crate::fields::{le16_at, le32_at};
use refusal::Refusal;

// The most entries of a sheet.
pub const MOST_ENTRIES: usize = 32;

// The top bit of an entry count: the sheet has its empty entries first. 02, request 9: "which new sheets set .. and readers strip".
pub const MARK: usize = 32768;

// An offset and a length: where an entry stands in its sheet.
#[derive(Clone, Copy, PartialEq, Eq, Debug)]
pub struct Place {
    pub offset: usize,
    pub size: usize,
}

// What is kept of the entries that a pass over a directory has left behind: the last offset, and of the full ones the greatest offset and the furthest end.
#[derive(Clone, Copy)]
struct Passed {
    last: usize,
    full: usize,
    end: usize,
}

impl Passed {
    // Whether an entry may stand behind those passed.
    #[tactic(auto, unfolding(crate::specs::inner::Passed::may_follow))]
    fn may_follow(self, first: bool, entry: Place) -> bool
        ensures { result ≡ may_follow first entry.offset entry.size self.last self.full self.end }
    {
        if entry.offset < self.last {
            return false;
        }
        if entry.size == 0 {
            return !first || self.full < entry.offset;
        }
        self.end <= entry.offset
    }

    // Another entry passed.
    #[tactic(auto, unfolding(crate::specs::inner::Passed::where_full))]
    fn and(self, entry: Place) -> Passed
        requires { entry.offset + entry.size < 18446744073709551616 }
        ensures last { result.last ≡ entry.offset }
        ensures full { result.full ≡ where_full entry.size entry.offset self.full }
        ensures end { result.end ≡ where_full entry.size (entry.offset + entry.size) self.end }
    {
        if entry.size == 0 {
            return Passed {
                last: entry.offset,
                ..self
            };
        }
        Passed {
            last: entry.offset,
            full: entry.offset,
            end: entry.offset + entry.size,
        }
    }
}

// Where the data of a sheet of n entries begin.
pub(crate) fn data_from(n: usize) -> usize
    requires { n ≤ 32 }
    ensures { result ≡ S.data_from n }
{
    2 + 8 * n
}

// Whether the entries are to stand by the present rule: "sheets made before this are checked under the former rule, marked by the lack of the top bit".
#[tactic(auto, unfolding(crate::specs::Sheet::empty_first))]
fn empty_first(bytes: &[u8]) -> bool
    ensures { result ≡ S.empty_first S.Rule.present bytes.now }
{
    MARK <= usize::from(le16_at(bytes, 0))
}

// The entry count, without the mark.
#[tactic(auto, unfolding(crate::specs::Sheet::count_of))]
pub fn count_in(bytes: &[u8]) -> usize
    ensures { result ≡ S.count_of S.Rule.present bytes.now }
{
    usize::from(le16_at(bytes, 0)) % MARK
}

// The pair of entry k.
#[tactic(auto, unfolding(crate::specs::Sheet::offset, crate::specs::Sheet::size))]
pub(crate) fn place_at(bytes: &[u8], k: usize) -> Place
    requires { k < 32 }
    ensures offset { result.offset ≡ S.offset bytes.now k }
    ensures size { result.size ≡ S.size bytes.now k }
{
    Place {
        offset: le32_at(bytes, 2 + 8 * k) as usize,
        size: le32_at(bytes, 6 + 8 * k) as usize,
    }
}

// Whether an entry lies in the data.
fn in_data(entry: Place, from: usize, past: usize) -> bool
    ensures { result ≡ (leb from entry.offset && leb (entry.offset + entry.size) past) }
{
    from <= entry.offset && entry.offset <= past && entry.size <= past - entry.offset
}

// Whether every entry lies in the data and may stand behind those before it. By their numbers, by which their pairs are found.
fn entries_fine(bytes: &[u8], n: usize, first: bool) -> bool
    requires { (n ≤ 32) × (S.data_from n ≤ length bytes.now) }
    ensures { result ≡ S.entries_fine first bytes.now n }
{
    let from = data_from(n);
    let mut passed = Passed {
        last: 0,
        full: 0,
        end: 0,
    };
    for k in 0..n {
        let entry = place_at(bytes, k);
        if !in_data(entry, from, bytes.len()) || !passed.may_follow(first, entry) {
            return false;
        }
        passed = passed.and(entry);
    }
    true
}

// Whether the count is over its limit or the sheet ends inside its directory.
#[tactic(auto, unfolding(crate::specs::Sheet::directory_broken))]
fn directory_broken(bytes: &[u8]) -> bool
    ensures { result ≡ S.directory_broken S.Rule.present bytes.now }
{
    if bytes.len() < 2 {
        return true;
    }
    let n = count_in(bytes);
    MOST_ENTRIES < n || bytes.len() < data_from(n)
}

// 16 and 17, for a reader that keeps a count.
#[tactic(auto, unfolding(crate::specs::Sheet::reader_number))]
pub fn reader_check(bytes: &[u8], count: usize) -> Result<(), Refusal>
    ensures { number_in result ≡ S.reader_number S.Rule.present bytes.now count }
{
    if directory_broken(bytes) || count_in(bytes) != count {
        return Err(Refusal::Directory);
    }
    if !entries_fine(bytes, count, empty_first(bytes)) {
        return Err(Refusal::Entries);
    }
    Ok(())
}
