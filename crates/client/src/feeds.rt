// A line is opened and fed again and again: what demand 3 says of every list of feeds, as the caller of a loop has it.
ghost use Rattle.std.specs.Prelude.{◌≡◌, ◌++◌, length, take, drop};
ghost use Rattle.refusal.specs.Outcome.{number_in, value_in, told_on, none_moved};
ghost use Rattle.line.specs.Openings.{opened, zeros};
ghost use Rattle.line.specs.Line.{feed_outcome, feed_span};
ghost use Rattle.line.specs.Demand3.{Demand3, none_yet};
ghost use Rattle.client.specs.FeedAll.{all_left, AllKept};

use line::{Line, Settings};
use refusal::{Moved, Refusal};

// One feed, of the samples and places that are left: it lends so many of each from the front on, or as many as there are.
fn feed_part(
    line: &mut Line,
    samples: &[i32],
    piece: usize,
    out: &mut [f32],
    span: usize,
) -> Result<Moved, Refusal>
    ensures answer { told_on none_moved result line.new ≡ feed_outcome line.old (take piece samples.now) (length (take span out.old)) }
    ensures places { out.new ≡ feed_span line.old (take piece samples.now) (take span out.old) ++ drop span out.old }
    ensures long { length (feed_span line.old (take piece samples.now) (take span out.old)) ≡ length (take span out.old) }
    ensures demand3 { Demand3 line.old (take piece samples.now) (take span out.old) (feed_span line.old (take piece samples.now) (take span out.old)) (told_on none_moved result line.new) }
{
    let past = piece.min(samples.len());
    let end = span.min(out.len());
    line.feed(&samples[..past], &mut out[..end])
}

// Opens a line and feeds it as often as both `pieces` and `spans` have a number: pieces[k] is how many samples feed k lends, and afterwards how many it took;
// spans[k] how many places, and afterwards how many outputs stand in front of them. Samples that a feed leaves the next one lends first; the spans lie one
// behind the other in `out`. A refused opening leaves everything as it is. Two lists and not one of structs, since either may be the longer one. Settings, taps
// and prototype stay three, as `Line::open` takes them: a struct would be made for this call, and taken apart in its first line.
pub fn feed_all(
    settings: Settings,
    taps: &[i16],
    prototype: &[f32],
    samples: &[i32],
    pieces: &mut [usize],
    out: &mut [f32],
    spans: &mut [usize],
) -> Result<Line, Refusal>
    ensures answer { number_in result ≡ (opened (record { settings = settings; taps = taps.now; prototype = prototype.now })).number }
    ensures all { record { line = value_in zeros result; pieces = pieces.new; spans = spans.new; out = out.new } ≡ all_left (record { settings = settings; taps = taps.now; prototype = prototype.now }) samples.now out.old pieces.old spans.old }
    ensures demand3 { number_in result ≡ 0 → AllKept (record { settings = settings; taps = taps.now; prototype = prototype.now }) none_yet samples.now out.old pieces.old spans.old }
{
    let mut line = Line::open(settings, taps, prototype)?;
    let mut at = 0;
    let mut from = 0;
    // By number, since of what is written through two zipped `iter_mut` a proof knows the lengths alone.
    for k in 0..pieces.len().min(spans.len()) {
        let (piece, span) = (pieces[k], spans[k]);
        let moved = feed_part(&mut line, &samples[at..], piece, &mut out[from..], span)?;
        pieces[k] = moved.taken;
        spans[k] = moved.written;
        at += moved.taken;
        from += span.min(out.len() - from);
    }
    Ok(line)
}
