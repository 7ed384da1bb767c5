// Reading, and the key of a text.
ghost use Rattle.std.specs.Prelude.{◌≡◌, ◌≤◌, length};
ghost use Rattle.text.specs.Put.{answer, left};
ghost use Rattle.path.specs.Read.{read_path};
ghost use Rattle.letters.specs.Narrow.{narrow};
ghost use Rattle.wide.specs.Mode.{wide};
ghost use Rattle.wide.specs.Read.{read_in, read_fault_in, reading_bytes_in, key_in};

use path::{Reading, Refusal};
use text::refusal::BAD_UTF8;
use text::{Fault, Written};

// Reads the picture of a text, which is written into the lent room.
fn read_through(text: &[u8], picture: &mut [u8]) -> Reading
    requires { length text.now ≤ length picture.old }
    ensures { result ≡ read_path (narrow text.now) }
{
    let end = letters::picture::narrow(text, picture);
    walk::walk_path(&picture[0..end])
}

// Reads the picture of a text of at most N bytes.
fn read_within<const N: usize>(text: &[u8]) -> Reading
    requires fits { length text.now ≤ N }
    requires room { N ≤ 4096 }
    ensures { result ≡ read_path (narrow text.now) }
{
    let mut picture = [0u8; N];
    read_through(text, &mut picture)
}

// Reads the picture of a text, in room that fits it: most paths are short, and less room takes less time to clear.
fn read_picture(text: &[u8]) -> Reading
    requires { length text.now ≤ 4096 }
    ensures { result ≡ read_path (narrow text.now) }
{
    if text.len() <= 256 {
        return read_within::<256>(text);
    }
    read_within::<4096>(text)
}

// Reads a text as a path: none where it is no UTF-8.
pub fn read_path(text: &[u8]) -> Option<Reading>
    ensures { result ≡ read_in wide text.now }
{
    if 4096 < text.len() {
        return Some(Err(Refusal::TooLong));
    }
    if text::part::all_ascii(text) {
        return Some(walk::walk_path(text));
    }
    if !letters::is_utf8(text) {
        return None;
    }
    Some(read_picture(text))
}

// The reading of a text as 26 bytes, for the node.
pub fn write_reading(text: &[u8], out: &mut [u8]) -> Fault
    ensures value { result ≡ read_fault_in wide text.now (length out.old) }
    ensures out_after { out.new ≡ left (reading_bytes_in wide text.now) out.old }
{
    match read_path(text) {
        Some(reading) => reading::write_answer(reading, out),
        None => Fault {
            refusal: BAD_UTF8,
            place: 0,
        },
    }
}

// Writes the key of a text, with the identifiers of the text itself.
pub fn write_key(text: &[u8], out: &mut [u8]) -> Written
    ensures value { result ≡ answer (key_in wide text.now) (length out.old) }
    ensures out_after { out.new ≡ left (key_in wide text.now) out.old }
{
    match read_path(text) {
        Some(reading) => key::write_shown(text, reading, out),
        None => Written {
            refusal: BAD_UTF8,
            length: 0,
        },
    }
}
