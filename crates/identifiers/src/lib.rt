// Identifiers: their checks, and owned ones. A file for each of the Rust's; what several of them use stands here.
#![tactic(auto)]

pub mod alphabet;
pub mod channel_id;
pub mod client_id;
pub mod connection_id;
pub mod port_id;
pub mod validate;

ghost use Rattle.std.specs.Prelude.{◌≡◌, ◌++◌, ◌+◌, ◌≤◌, ltb, length};
ghost use Rattle.text.specs.Bytes.{bytes};
ghost use Rattle.text.specs.Number.{width, decimal};
ghost use Rattle.text.specs.Put.{put, text, accepted, answer, left};

use text::Written;
use text::refusal::NO_ROOM;

// Copies the text into `out` where its check accepted it.
fn write_accepted(refusal: u8, s: &[u8], out: &mut [u8]) -> Written
    ensures value { result ≡ answer (accepted refusal s.now) (length out.old) }
    ensures out_after { out.new ≡ left (accepted refusal s.now) out.old }
{
    if refusal != 0 {
        return Written { refusal, length: 0 };
    }
    text::put::give(out, s)
}

// Writes an index; one of one digit is told here, so that no call is left for it.
fn write_index(out: &mut [u8], at: usize, n: u64) -> usize
    requires { at + length (decimal n) ≤ length out.old }
    ensures value { result ≡ at + length (decimal n) }
    ensures out_after { out.new ≡ put out.old at (decimal n) }
{
    if n < 10 {
        return text::put::write_byte(out, at, 48 + n as u8);
    }
    text::write_number(out, at, n)
}

// Whether a name of so many bytes, `-` and the index fit the room. Where any index does, its width is not asked for.
fn has_room(name: usize, index: u64, room: usize) -> bool
    ensures { result ≡ ltb (name + width index) room }
{
    let left = room.saturating_sub(name);
    20 < left || text::number_width(index) < left
}

// Writes `{name}-{counter}`.
pub fn write_named(name: &[u8], counter: u64, out: &mut [u8]) -> Written
    ensures value { result ≡ answer (text (name.now ++ (bytes "-" ++ decimal counter))) (length out.old) }
    ensures out_after { out.new ≡ left (text (name.now ++ (bytes "-" ++ decimal counter))) out.old }
{
    if !has_room(name.len(), counter, out.len()) {
        return Written {
            refusal: NO_ROOM,
            length: 0,
        };
    }
    let dash = text::put::write_text(out, 0, name);
    let index = text::put::write_byte(out, dash, b'-');
    let end = write_index(out, index, counter);
    Written {
        refusal: 0,
        length: end as u64,
    }
}
