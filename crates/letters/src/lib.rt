// Characters beyond ASCII: the characters of a text, their classes, and the plain picture of a text.
#![tactic(auto)]

pub mod check;
pub mod class;
pub mod picture;
mod table;
pub mod trim;

ghost use Rattle.std.specs.Prelude.{◌≡◌, None, cond, ◌+◌, ◌≤◌, ◌<◌, length, drop};
ghost use Rattle.letters.specs.Character.{point, proper, goes_on, character_of, size_of, utf8};

// A character of a text: its number, and how many bytes it has.
#[derive(Clone, Copy)]
pub struct CodePoint {
    pub value: u32,
    pub size: usize,
}

// What begins at a byte of a text: a character, or none.
pub type Character = Option<CodePoint>;

// The character of that value and size, unless it is an overlong form, a surrogate or above 1114111.
fn scalar(value: u32, size: usize, least: u32) -> Character
    ensures { result ≡ cond (proper least value) (point value size) None }
{
    if value < least || char::from_u32(value).is_none() {
        return None;
    }
    Some(CodePoint { value, size })
}

// The character whose first byte, just before `at`, says that n bytes follow, and has `first` of its value.
fn goes_on(s: &[u8], at: usize, n: usize, least: u32, first: u32) -> Character
    requires { (at ≤ length s.now) × (n ≤ 3) × (first < 64) }
    ensures { result ≡ goes_on n (n + 1) least first (drop at s.now) }
{
    let mut value = first;
    for i in 0..n {
        if s.len() <= at + i {
            return None;
        }
        let b = u32::from(s[at + i]);
        if b < 128 {
            return None;
        }
        if 191 < b {
            return None;
        }
        value = value * 64 + (b - 128);
    }
    scalar(value, n + 1, least)
}

// The character that begins at a place of the text; none begins at its end or past it.
#[inline(always)]
pub fn character_at(s: &[u8], at: usize) -> Character
    ensures { result ≡ character_of (drop at s.now) }
{
    if s.len() <= at {
        return None;
    }
    let b = u32::from(s[at]);
    match b {
        0..=127 => Some(CodePoint { value: b, size: 1 }),
        192..=223 => goes_on(s, at + 1, 1, 128, b - 192),
        224..=239 => goes_on(s, at + 1, 2, 2048, b - 224),
        240..=247 => goes_on(s, at + 1, 3, 65536, b - 240),
        _ => None,
    }
}

// How many bytes of a text the character takes: where none begins, the one byte is passed over.
pub(crate) fn size_of(c: Character) -> usize
    ensures { result ≡ size_of c }
{
    match c {
        Some(c) => c.size,
        None => 1,
    }
}

// Whether the text is UTF-8.
pub fn is_utf8(s: &[u8]) -> bool
    ensures { result ≡ utf8 s.now }
{
    if text::part::all_ascii(s) {
        return true;
    }
    let mut i: usize = 0;
    while i < s.len() {
        let Some(c) = character_at(s, i) else {
            return false;
        };
        i += c.size;
    }
    true
}
