// The characters of an identifier, also beyond ASCII.
ghost use Rattle.std.specs.Prelude.{◌≡◌};
ghost use Rattle.letters.specs.Text.{wide_chars};

use crate::picture::seen_as;
use crate::{character_at, is_utf8};
use identifiers::validate::{is_identifier_byte, validate_identifier_chars};
use text::refusal::{BAD_CHAR, BAD_UTF8, NOT_ASCII};

// Whether each character of the text is a letter, a number or one of `. _ + - # [ ] < >`. A text of ASCII is told as it always
// was; of others, at the first other character the whole text tells which refusal it is.
pub fn wide_chars(s: &[u8]) -> u8
    ensures { result ≡ wide_chars s.now }
{
    let plain = validate_identifier_chars(s);
    if plain != NOT_ASCII {
        return plain;
    }
    let mut i: usize = 0;
    while i < s.len() {
        let Some(c) = character_at(s, i) else {
            return BAD_UTF8;
        };
        if !is_identifier_byte(seen_as(Some(c))) {
            if is_utf8(s) {
                return BAD_CHAR;
            }
            return BAD_UTF8;
        }
        i += c.size;
    }
    0
}
