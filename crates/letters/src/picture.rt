// The plain picture of a text.
ghost use Rattle.std.specs.Prelude.{◌≡◌, ◌+◌, ◌≤◌, length, replicate};
ghost use Rattle.text.specs.Put.{put};
ghost use Rattle.letters.specs.Narrow as specs;

use crate::{Character, character_at, size_of};

// What stands for a character beyond ASCII.
fn mark_of(v: u32) -> u8
    ensures { result ≡ specs.mark_of v }
{
    if crate::class::is_letter(v) {
        return b'Z';
    }
    if crate::class::is_blank(v) {
        return b' ';
    }
    b'!'
}

// What stands for a character: of ASCII, itself.
pub(crate) fn seen_as(c: Character) -> u8
    ensures { result ≡ specs.seen_as c }
{
    match c {
        Some(c) if c.value < 128 => c.value as u8,
        Some(c) => mark_of(c.value),
        None => b'!',
    }
}

// Writes the byte n times from out[at] on, and returns the place after them.
fn fill(out: &mut [u8], at: usize, n: usize, b: u8) -> usize
    requires { at + n ≤ length out.old }
    ensures value { result ≡ at + n }
    ensures out_after { out.new ≡ put out.old at (replicate n b) }
{
    let end = at + n;
    out[at..end].fill(b);
    end
}

// Writes the picture of a text from byte 0 on, and returns its length, which is that of the text.
pub fn narrow(t: &[u8], out: &mut [u8]) -> usize
    requires { length t.now ≤ length out.old }
    ensures value { result ≡ length t.now }
    ensures out_after { out.new ≡ put out.old 0 (specs.narrow t.now) }
{
    let mut i: usize = 0;
    while i < t.len() {
        let c = character_at(t, i);
        i = fill(out, i, size_of(c), seen_as(c));
    }
    i
}
