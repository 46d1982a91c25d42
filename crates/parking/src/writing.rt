// 02, request 6: "Write a line's settings, taps and whole record as a tap sheet of seven entries"; of eight, by request 13, where neighbours are summed: "the CIC one empty,
// the last holding its place" and the neighbours.
ghost use Rattle.std.specs.Prelude.{◌≡◌, ◌≤◌, length, take, sum, IfOk};
ghost use Rattle.refusal.specs.Outcome.{count_answer};
ghost use Rattle.sheet.specs.Sheet as S;
ghost use Rattle.parking.specs.Kept.{line_kept};
ghost use Rattle.parking.specs.Older.{ForOlder};
ghost use Rattle.parking.specs.Parked as P;
ghost use Rattle.parking.specs.Parking as K;
ghost use Rattle.parking.specs.inner.Told.{all_sizes, numbers_of, parts, settings_by};

use crate::entries::{put_fir, put_first, put_half_band, put_last, put_resampler, put_settings};
use crate::fine_line::FineLine;
use crate::kept::KeptLine;
use crate::settings::{ParkedSettings, entry_count, total};
use line::Line;
use refusal::Refusal;
use sheet::lay_directory;

// Where the data of a sheet of n entries begin. Beside sheet's own, which asks for few entries too: a public function asks for nothing.
fn data_from(n: usize) -> usize
    requires { n ≤ 32 }
    ensures { result ≡ S.data_from n }
{
    2 + 8 * n
}

// How many bytes the sheet of a line has.
fn sheet_len(line: &FineLine<'_>) -> usize
    ensures { result ≡ length (P.parked S.Rule.present (parts (line_kept line.now.kept))) }
{
    let numbers = line.kept.numbers;
    let thinning = numbers.settings.thinning;
    let count = entry_count(thinning);
    let sizes = ParkedSettings::of(numbers).sizes(thinning);
    data_from(count) + total(&sizes[..count])
}

// The entries, one behind the other.
fn put_entries(span: &mut [u8], sizes: &[usize; 8], q: &ParkedSettings, line: &FineLine<'_>)
    requires { let l = line_kept line.now.kept in
        (numbers_of q.now ≡ settings_by l) × (sizes.now ≡ all_sizes l.thinning (settings_by l)) × (length span.old ≡ sum (all_sizes l.thinning (settings_by l))) }
    ensures { span.new ≡ P.flat (parts (line_kept line.now.kept)) }
{
    let (settings, behind) = span.split_at_mut(24);
    let (first, behind) = behind.split_at_mut(sizes[1]);
    let (fir, behind) = behind.split_at_mut(sizes[2] + sizes[3]);
    let (half_band, behind) = behind.split_at_mut(sizes[4]);
    let (resampler, last) = behind.split_at_mut(sizes[5] + sizes[6]);
    put_settings(settings, q);
    put_first(first, line);
    put_fir(fir, line);
    put_half_band(half_band, line);
    put_resampler(resampler, line);
    put_last(last, line);
}

// The whole sheet.
fn put_line(span: &mut [u8], line: &FineLine<'_>)
    requires { length span.old ≡ length (P.parked S.Rule.present (parts (line_kept line.now.kept))) }
    ensures { span.new ≡ P.parked S.Rule.present (parts (line_kept line.now.kept)) }
{
    let numbers = line.kept.numbers;
    let thinning = numbers.settings.thinning;
    let q = ParkedSettings::of(numbers);
    let count = entry_count(thinning);
    let sizes = q.sizes(thinning);
    let lengths = &sizes[..count];
    let (directory, entries) = span.split_at_mut(data_from(count));
    lay_directory(directory, lengths, total(lengths));
    put_entries(entries, &sizes, &q, line);
}

// `parked_len` of a line whose fields are lent apart.
pub fn parked_len_kept(k: &KeptLine<'_>) -> Result<usize, Refusal>
    ensures { count_answer result ≡ K.length_answer P.panel (line_kept k.now) }
{
    let line = FineLine::of(k)?;
    Ok(sheet_len(&line))
}

// `park` of a line whose fields are lent apart, so that none is copied.
pub fn park_kept(k: &KeptLine<'_>, span: &mut [u8]) -> Result<usize, Refusal>
    ensures answer { count_answer result ≡ K.park_answer P.panel (line_kept k.now) (length span.old) }
    ensures span { span.new ≡ K.park_span P.panel (line_kept k.now) span.old }
    ensures older { IfOk result (λ n. ForOlder (line_kept k.now) (take n span.new)) }
{
    let line = FineLine::of(k)?;
    let size = sheet_len(&line);
    if span.len() < size {
        return Err(Refusal::Entries);
    }
    put_line(&mut span[..size], &line);
    Ok(size)
}

// How many bytes the line's sheet has, so that a span may be made for it. Refusal 15.
pub fn parked_len(line: &Line) -> Result<usize, Refusal>
    ensures { count_answer result ≡ K.length_answer P.panel line.now }
{
    parked_len_kept(&KeptLine::of(line))
}

// Writes the line as a tap sheet at the front of a span, and says how many bytes it has. Refusals 15, then 17. The clause `older`: to the bytes of a panel before request
// 7, or to some that it answers with 15; and of neighbours to some that a panel before request 13 answers with 21.
pub fn park(line: &Line, span: &mut [u8]) -> Result<usize, Refusal>
    ensures answer { count_answer result ≡ K.park_answer P.panel line.now (length span.old) }
    ensures span { span.new ≡ K.park_span P.panel line.now span.old }
    ensures older { IfOk result (λ n. ForOlder line.now (take n span.new)) }
{
    park_kept(&KeptLine::of(line), span)
}
