// The first reader of path texts, which cuts a text into its components: the plainer one, that the second is held against.
#![tactic(auto)]

ghost use Rattle.std.specs.Prelude.{◌≡◌, length};
ghost use Rattle.text.specs.Put.{left};
ghost use Rattle.path.specs.Read.{read_path, reading_bytes, read_fault};

use path::{ReadPath, Reading, Refusal};
use text::Fault;

// Reads a text as a path. What is read is ASCII, so only another text is tested for it. The mark goes by length, since a
// rendering that is as long as its text is that text.
pub fn read_path(text: &[u8]) -> Reading
    ensures { result ≡ read_path text.now }
{
    if 4096 < text.len() {
        return Err(Refusal::TooLong);
    }
    let Some(path) = read_kinds::parse_path(text) else {
        return Err(reading::fault(text));
    };
    let v = path::view(path, false);
    let length = path::measure::render_length(v.kind, v.first.len, v.second.len, v.a, v.b);
    Ok(ReadPath {
        path,
        exact: length == text.len(),
    })
}

// The reading of a text as 26 bytes, for the node.
pub fn write_reading(text: &[u8], out: &mut [u8]) -> Fault
    ensures value { result ≡ read_fault text.now (length out.old) }
    ensures out_after { out.new ≡ left (reading_bytes text.now) out.old }
{
    reading::write_answer(read_path(text), out)
}
