// 02, §10: "22 when the two lists and the two result lists aren't of one length or pass a limit".
ghost use Rattle.std.specs.Prelude.{◌≡◌};
ghost use Rattle.plan.specs.Plan as P;

use refusal::rows::MOST_BLOCK;

// The most calls of a plan.
pub const MOST_CALLS: usize = 4096;

// Whether no length passes the limit.
fn lengths_fine(lengths: &[usize]) -> bool
    ensures { result ≡ P.lengths_fine lengths.now }
{
    lengths.iter().all(|length| *length <= MOST_BLOCK)
}

#[tactic(auto, unfolding(crate::specs::Plan::lists_fine))]
pub(crate) fn lists_fine(
    pieces: &[usize],
    spans: &[usize],
    taken_places: usize,
    written_places: usize,
) -> bool
    ensures { result ≡ P.lists_fine pieces.now spans.now taken_places written_places }
{
    let calls = pieces.len();
    spans.len() == calls
        && taken_places == calls
        && written_places == calls
        && calls <= MOST_CALLS
        && lengths_fine(pieces)
        && lengths_fine(spans)
}
