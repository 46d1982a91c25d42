// Values laid one behind the other.
ghost use Rattle.std.specs.Prelude.{◌≡◌, ◌*◌, length};
ghost use Rattle.words.specs.Fields.{joined};

use words::Word;

// Fills a span with values. By their places: of what stands behind `chunks_exact_mut` a proof knows the lengths alone.
pub(crate) fn put_all<W: Word>(span: &mut [u8], xs: &[W])
    requires { length span.old ≡ W.SIZE * length xs.now }
    ensures { span.new ≡ joined W.bytes xs.now }
{
    for (i, x) in xs.iter().enumerate() {
        x.lay(span, W::SIZE * i);
    }
}
