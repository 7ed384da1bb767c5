// How far two texts agree.
ghost use Rattle.std.specs.Prelude.{◌≡◌, false, reverse};
ghost use Rattle.identifiers.specs.Check.{identifier_byte};
ghost use Rattle.diagnose.specs.Diagnosis.{cased, agree, until, alike_but};

use identifiers::validate::is_identifier_byte;

// A byte as it is compared: a small letter for a capital one, where letter case does not count.
fn cased_byte(fold: bool, b: u8) -> u8
    ensures { result ≡ cased fold b }
{
    if fold { b.to_ascii_lowercase() } else { b }
}

// How many bytes agree from the front on.
pub(crate) fn agree_front(fold: bool, a: &[u8], b: &[u8]) -> usize
    ensures { result ≡ agree fold a.now b.now }
{
    let n = a.len().min(b.len());
    for i in 0..n {
        if cased_byte(fold, a[i]) != cased_byte(fold, b[i]) {
            return i;
        }
    }
    n
}

// How many bytes agree from the back on.
pub(crate) fn agree_back(a: &[u8], b: &[u8]) -> usize
    ensures { result ≡ agree false (reverse a.now) (reverse b.now) }
{
    let n = a.len().min(b.len());
    for i in 0..n {
        if a[a.len() - 1 - i] != b[b.len() - 1 - i] {
            return i;
        }
    }
    n
}

// Whether two texts are the same but for letter case.
pub(crate) fn alike_but(w: &[u8], c: &[u8]) -> bool
    ensures { result ≡ alike_but w.now c.now }
{
    c.len() == w.len() && agree_front(true, w, c) == w.len()
}

// How many bytes may stand in an identifier, from the front on.
pub(crate) fn identifier_run(c: &[u8]) -> usize
    ensures { result ≡ until identifier_byte c.now }
{
    for i in 0..c.len() {
        if !is_identifier_byte(c[i]) {
            return i;
        }
    }
    c.len()
}
