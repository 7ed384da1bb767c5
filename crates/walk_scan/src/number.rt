// The number at a place of a text.
ghost use Rattle.std.specs.Prelude.{◌≡◌, true, false, ◌∷◌, [], ◌≤◌, ◌<◌, length, drop};
ghost use Rattle.text.specs.Number.{is_digit};
ghost use Rattle.text.specs.Part.{starts_with};
ghost use Rattle.walk_scan.specs.Number.{figures, counted_of, plain_of};

use text::over;

// Digits as a number, and where they end.
#[derive(Clone, Copy)]
pub struct Figures {
    pub value: u64,
    pub end: usize,
}

// A number, where it ends, and whether it is spelled as it is rendered.
#[derive(Clone, Copy)]
pub struct Counted {
    pub value: u64,
    pub end: usize,
    pub plain: bool,
}

fn is_digit(b: u8) -> bool
    ensures { result ≡ is_digit b }
{
    b.is_ascii_digit()
}

// The digits from `at` on: none where their value passes a u64.
fn digits(s: &[u8], at: usize) -> Option<Figures>
    requires { at ≤ length s.now }
    ensures { result ≡ figures 0 at (drop at s.now) }
{
    let mut value: u64 = 0;
    for i in at..s.len() {
        if !is_digit(s[i]) {
            return Some(Figures { value, end: i });
        }
        let d = (s[i] - 48) as u64;
        if over(value, d) {
            return None;
        }
        value = value * 10 + d;
    }
    Some(Figures {
        value,
        end: s.len(),
    })
}

// Whether n digits, the first of them b, are spelled as their number is rendered.
fn is_plain(n: usize, b: u8) -> bool
    ensures { result ≡ plain_of n b }
{
    n == 1 || b != 48
}

// A number with its sign at `at`.
fn signed(s: &[u8], at: usize) -> Option<Counted>
    requires at_in_bounds { at < length s.now }
    requires s_value { starts_with (43 ∷ []) (drop at s.now) ≡ true }
    ensures { result ≡ counted_of at (drop at s.now) }
{
    let f = digits(s, at + 1)?;
    if f.end == at + 1 {
        return None;
    }
    Some(Counted {
        value: f.value,
        end: f.end,
        plain: false,
    })
}

// A number without a sign.
fn unsigned(s: &[u8], at: usize) -> Option<Counted>
    requires at_in_bounds { at < length s.now }
    requires s_value { starts_with (43 ∷ []) (drop at s.now) ≡ false }
    ensures { result ≡ counted_of at (drop at s.now) }
{
    let f = digits(s, at)?;
    if f.end <= at {
        return None;
    }
    Some(Counted {
        value: f.value,
        end: f.end,
        plain: is_plain(f.end - at, s[at]),
    })
}

// The number at `at`.
pub fn number(s: &[u8], at: usize) -> Option<Counted>
    requires { at ≤ length s.now }
    ensures { result ≡ counted_of at (drop at s.now) }
{
    if at == s.len() {
        return None;
    }
    if s[at] == b'+' {
        return signed(s, at);
    }
    unsigned(s, at)
}
