// The checks that are the same whatever identifiers are made of.
ghost use Rattle.std.specs.Prelude.{◌≡◌, refl, ℕ, Bool, false, max, eqb, List, length};
ghost use Rattle.text.specs.Fault.{fault, has_place};
ghost use Rattle.text.specs.Part.{ascii};
ghost use Rattle.text.specs.Refusal.{not_ascii};
ghost use Rattle.identifiers.specs.Check.{chars_of, first, unless, within, named_of, index_place};

use crate::validate::{check_named, length_within, placeless, validate_identifier_chars};
use text::Fault;
use text::refusal::NOT_ASCII;

// What identifiers are made of.
pub trait Alphabet {
    ghost taken: { List ℕ → Bool };

    ghost other: { ℕ };

    ghost characters: { List ℕ → ℕ };

    // Whether a text is one of its texts.
    fn takes(s: &[u8]) -> bool
        ensures { result ≡ taken s.now };

    // The refusal of a text that is not.
    fn other() -> u8
        ensures { result ≡ other };

    // The refusal of a text's characters, 0 where identifiers are made of each.
    fn check_characters(s: &[u8]) -> u8
        ensures { result ≡ characters s.now };

    ghost refuses: { eqb other 0 ≡ false };

    ghost placeless: { has_place other ≡ false };
}

// ASCII alone.
pub struct Ascii {}

impl Alphabet for Ascii {
    ghost taken = { ascii };

    ghost other = { not_ascii };

    ghost characters = { chars_of };

    ghost refuses = { refl };

    ghost placeless = { refl };

    fn takes(s: &[u8]) -> bool {
        text::part::all_ascii(s)
    }

    fn other() -> u8 {
        NOT_ASCII
    }

    fn check_characters(s: &[u8]) -> u8 {
        validate_identifier_chars(s)
    }
}

// Whether the text has at least `least` bytes, and at least one, and at most `most`.
pub fn check_length<A: Alphabet>(id: &[u8], least: u64, most: u64) -> u8
    ensures { result ≡ first (unless A.other (A.taken id.now)) (within (max least 1) most (length id.now)) }
{
    if !A::takes(id) {
        return A::other();
    }
    length_within(id.len() as u64, least.max(1), most)
}

// Whether the text is `{name}-{index}`.
pub fn check_named_index<A: Alphabet>(id: &[u8], name: &[u8]) -> Fault
    ensures { result ≡ fault (first (unless A.other (A.taken id.now)) (first (unless A.other (A.taken name.now)) (named_of name.now id.now))) (index_place name.now id.now) }
{
    if !A::takes(id) {
        return placeless(A::other());
    }
    if !A::takes(name) {
        return placeless(A::other());
    }
    check_named(id, name)
}

// Characters and length in bytes, which every identifier is asked for.
pub fn check_plain<A: Alphabet>(id: &[u8], least: u64, most: u64) -> u8
    ensures { result ≡ first (A.characters id.now) (within least most (length id.now)) }
{
    let characters = A::check_characters(id);
    if characters != 0 {
        return characters;
    }
    length_within(id.len() as u64, least, most)
}
