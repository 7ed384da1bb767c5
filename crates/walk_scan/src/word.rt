// Fixed words, compared eight bytes at a time as numbers, the first byte lowest.
ghost use Rattle.std.specs.Prelude.{◌≡◌, ◌&&◌, ◌+◌, ◌-◌, ◌≤◌, length, drop};
ghost use Rattle.text.specs.Number.{low_bytes};
ghost use Rattle.text.specs.Part.{starts_with};

use text::part::eight;

// Whether the eight bytes at `at` are those of a.
fn is_eight(s: &[u8], at: usize, a: u64) -> bool
    requires { at + 8 ≤ length s.now }
    ensures { result ≡ starts_with (low_bytes 8 a) (drop at s.now) }
{
    eight(s, at) == a
}

// Whether these eight bytes stand at `at`, where there may be fewer.
pub fn word8(s: &[u8], at: usize, w: &[u8]) -> bool
    requires { (at ≤ length s.now) × (length w.now ≡ 8) }
    ensures { result ≡ starts_with w.now (drop at s.now) }
{
    8 <= s.len() - at && is_eight(s, at, eight(w, 0))
}

// Whether the n bytes at `at` are these: the first eight and the last eight.
pub fn word16(s: &[u8], at: usize, n: usize, a: u64, b: u64) -> bool
    requires { (at ≤ length s.now) × (8 ≤ n) }
    ensures { result ≡ (starts_with (low_bytes 8 a) (drop at s.now) && starts_with (low_bytes 8 b) (drop (at + (n - 8)) s.now)) }
{
    n <= s.len() - at && is_eight(s, at, a) && is_eight(s, at + (n - 8), b)
}

// The first, the second and the last eight.
pub fn word24(s: &[u8], at: usize, n: usize, a: u64, b: u64, c: u64) -> bool
    requires { (at ≤ length s.now) × (16 ≤ n) }
    ensures { result ≡ (starts_with (low_bytes 8 a) (drop at s.now) && (starts_with (low_bytes 8 b) (drop (at + 8) s.now) && starts_with (low_bytes 8 c) (drop (at + (n - 8)) s.now))) }
{
    n <= s.len() - at
        && is_eight(s, at, a)
        && is_eight(s, at + 8, b)
        && is_eight(s, at + (n - 8), c)
}
