// Tests on a text.
ghost use Rattle.std.specs.Prelude.{◌≡◌, cond, ◌+◌, ◌≤◌, eqb, length, take, drop};
ghost use Rattle.text.specs.Number.{Bytes, little};
ghost use Rattle.text.specs.Part.{ascii, starts_with, same};

// The eight bytes of `s` from `at` on as a number, the first lowest: one load.
pub fn eight(s: &[u8], at: usize) -> u64
    requires { at + 8 ≤ length s.now }
    ensures value { result ≡ little 8 (drop at s.now) }
    ensures bytes { Bytes s.now }
{
    u64::from_le_bytes([
        s[at],
        s[at + 1],
        s[at + 2],
        s[at + 3],
        s[at + 4],
        s[at + 5],
        s[at + 6],
        s[at + 7],
    ])
}

// Whether each of the eight bytes of `s` from `at` on is below 128.
fn eight_ascii(s: &[u8], at: usize) -> bool
    requires { at + 8 ≤ length s.now }
    ensures { result ≡ ascii (take 8 (drop at s.now)) }
{
    (eight(s, at) & 0x8080808080808080) == 0
}

// Whether each of the sixteen is.
fn sixteen_ascii(s: &[u8], at: usize) -> bool
    requires { at + 16 ≤ length s.now }
    ensures { result ≡ ascii (take 16 (drop at s.now)) }
{
    eight_ascii(s, at) & eight_ascii(s, at + 8)
}

// Whether each byte of `s` is below 128. Of 8 to 256 bytes that is told in parts, the last of which may have bytes of the one
// before, so that none is left over: the library's method is slower on so few, and faster on more.
pub fn all_ascii(s: &[u8]) -> bool
    ensures { result ≡ ascii s.now }
{
    if s.len() < 8 || 256 < s.len() {
        return s.is_ascii();
    }
    if s.len() < 16 {
        return eight_ascii(s, 0) & eight_ascii(s, s.len() - 8);
    }
    let last = s.len() - 16;
    for i in (0..last).step_by(16) {
        if !sixteen_ascii(s, i) {
            return false;
        }
    }
    sixteen_ascii(s, last)
}

// Whether `w` stands in `s` at place `at`.
pub fn same_at(s: &[u8], at: usize, w: &[u8]) -> bool
    requires { at ≤ length s.now }
    ensures { result ≡ starts_with w.now (drop at s.now) }
{
    s[at..].starts_with(w)
}

// 1 where two bytes differ, and where they do not, what was known.
fn unlike(known: u8, a: u8, b: u8) -> u8
    ensures { result ≡ cond (eqb a b) known 1 }
{
    if a == b { known } else { 1 }
}

// Whether two texts are the same. The loop has no early exit, so that it can take many bytes at a time.
pub fn equal(a: &[u8], b: &[u8]) -> bool
    ensures { result ≡ same a.now b.now }
{
    if a.len() != b.len() {
        return false;
    }
    let mut differ: u8 = 0;
    for i in 0..a.len() {
        differ = unlike(differ, a[i], b[i]);
    }
    differ == 0
}
