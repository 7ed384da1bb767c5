// The families of kinds, each read by one walk.
#![tactic(auto)]

pub mod client;
pub mod ends;
pub mod name;
mod packet;
pub mod upgrade;

ghost use Rattle.std.specs.Prelude.{◌≡◌, true};

use path::{PathView, Place};

// A path that carries nothing, or one identifier.
pub fn bare(kind: u8, start: usize, len: usize) -> PathView
    ensures { result ≡ record { kind = kind; exact = true; first = record { start = start; len = len }; second = record { start = 0; len = 0 }; a = 0; b = 0 } }
{
    PathView {
        kind,
        exact: true,
        first: Place { start, len },
        second: Place { start: 0, len: 0 },
        a: 0,
        b: 0,
    }
}
