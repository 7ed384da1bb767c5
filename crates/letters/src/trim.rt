// The white space at the ends of a text, also beyond ASCII.
ghost use Rattle.std.specs.Prelude.{◌≡◌, cond, length};
ghost use Rattle.text.specs.Stands.{Stands};
ghost use Rattle.identifiers.specs.Owned.{blank, trim_end};
ghost use Rattle.letters.specs.Narrow.{narrow};
ghost use Rattle.letters.specs.Text.{leading, wide_trim};

use crate::picture::seen_as;
use crate::{character_at, size_of};
use identifiers::client_id::is_white;

// Where the white space at the start of the text ends.
fn white_end(s: &[u8]) -> usize
    ensures { result ≡ leading s.now }
{
    let mut i: usize = 0;
    while i < s.len() {
        let c = character_at(s, i);
        if !is_white(seen_as(c)) {
            return i;
        }
        i += size_of(c);
    }
    i
}

// The place where the text ends so far: after a white character still where it was.
fn end_after(end: usize, next: usize, seen: u8) -> usize
    ensures { result ≡ cond (blank seen) end next }
{
    if is_white(seen) { end } else { next }
}

// Where the white space at the end of the text begins: after its last character that is not white.
fn text_end(s: &[u8]) -> usize
    ensures { result ≡ length (trim_end (narrow s.now)) }
{
    let mut end: usize = 0;
    let mut i: usize = 0;
    while i < s.len() {
        let c = character_at(s, i);
        let next = i + size_of(c);
        end = end_after(end, next, seen_as(c));
        i = next;
    }
    end
}

// The text without the white space at its ends, as a part of it.
pub fn wide_trim(s: &[u8]) -> &[u8]
    ensures { Stands result s.entry (leading s.now) (wide_trim s.now) }
{
    let start = white_end(s);
    let body = &s[start..];
    let end = text_end(body);
    &body[0..end]
}
