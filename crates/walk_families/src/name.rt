// Kinds 9 and 10: a word, and an identifier.
ghost use Rattle.std.specs.Prelude.{◌≡◌, ◌∷◌, [], ◌≤◌, length, drop};
ghost use Rattle.path.specs.declared.name.Name.TheVariants.{Connection, Port};
ghost use Rattle.path.specs.Kinds.{name};
ghost use Rattle.walk_scan.specs.Tail.{tail_of};
ghost use Rattle.walk_families.specs.Flat.{walked};

use crate::bare;
use path::PathView;
use walk_scan::name::{connection_length, plain_length};

// Kind 9: `K` from `at` on.
pub fn connection(text: &[u8], at: usize) -> Option<PathView>
    requires { at ≤ length text.now }
    ensures { result ≡ walked 9 (tail_of (name Connection ∷ []) at (drop at text.now)) }
{
    let n = connection_length(text, at)?;
    if at + n != text.len() {
        return None;
    }
    Some(bare(9, at, n))
}

// Kind 10: `P` from `at` on.
pub fn port(text: &[u8], at: usize) -> Option<PathView>
    requires { at ≤ length text.now }
    ensures { result ≡ walked 10 (tail_of (name Port ∷ []) at (drop at text.now)) }
{
    let n = plain_length(text, at, 2, 128)?;
    if at + n != text.len() {
        return None;
    }
    Some(bare(10, at, n))
}
