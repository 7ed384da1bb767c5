// The first seven components of a text, and of a kind.
ghost use Rattle.std.specs.Prelude.{◌≡◌, ◌<◌, length};
ghost use Rattle.path.specs.Text.{component};
ghost use Rattle.diagnose.specs.Diagnosis.{seven};

use path::Cut;
use read_pieces::cutter::CutText;

// How many there are.
pub(crate) fn seen_of(text: CutText) -> usize
    ensures { result ≡ length (seven text.entry.text.now) }
{
    text.cut.count.min(7)
}

// Component k of them.
pub(crate) fn piece_at<'a>(text: CutText<'a>, k: usize) -> &'a [u8]
    requires { k < length (seven text.text.now) }
    ensures { result.now ≡ component text.entry.text.now k }
{
    let Cut { starts, count } = text.cut;
    let start = starts[k];
    if k + 1 < count {
        let next = starts[k + 1];
        return &text.text[start..next - 1];
    }
    &text.text[start..]
}
