// Which kinds of path are provable.
ghost use Rattle.std.specs.Prelude.{◌≡◌};
ghost use Rattle.path.specs.View.{kind_of, provable, provable_flag};

use crate::Path;
use text::refusal::BAD_KIND;

// A refusal number, 0 where there is none, and a value of 0 or 1.
#[repr(C)]
#[derive(Clone, Copy)]
pub struct Flag {
    pub refusal: u8,
    pub value: u8,
}

// All kinds but 8 and 10.
fn provable_kind(kind: u8) -> bool
    ensures { result ≡ provable kind }
{
    !matches!(kind, 8 | 10)
}

// Whether the path is provable.
pub fn is_provable(p: Path) -> bool
    ensures { result ≡ provable (kind_of p) }
{
    let v = crate::view(p, false);
    provable_kind(v.kind)
}

// Whether paths of this kind are provable.
pub fn kind_is_provable(kind: u8) -> Flag
    ensures { result ≡ provable_flag kind }
{
    match kind {
        1..=19 => Flag {
            refusal: 0,
            value: u8::from(provable_kind(kind)),
        },
        _ => Flag {
            refusal: BAD_KIND,
            value: 0,
        },
    }
}
