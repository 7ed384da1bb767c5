// Kinds 18 and 19.
ghost use Rattle.std.specs.Prelude.{◌≡◌, ◌≤◌, length};
ghost use Rattle.path.specs.Read.{read_first};
ghost use Rattle.walk_families.specs.Flat.{flat, upgrades};
ghost use Rattle.walk_families.specs.Upgrade.{UpgradeKind};

use path::{PathView, Place};
use walk_scan::name::slash;
use walk_scan::number::number;
use walk_words::{is_upgraded_client, is_upgraded_cons_state};

// The kind by the word after n.
fn upgrade_kind(text: &[u8], q: usize) -> Option<u8>
    requires { q ≤ length text.now }
    ensures { UpgradeKind text.now q result }
{
    match text.len() - q {
        15 => is_upgraded_client(text, q).then_some(18),
        18 => is_upgraded_cons_state(text, q).then_some(19),
        _ => None,
    }
}

// A text of U, n and a word. The bytes of U are looked at again where all else fits, for one of 128 or more.
pub fn upgrade(text: &[u8]) -> Option<PathView>
    ensures { result ≡ flat text.now (read_first upgrades text.now) }
{
    let e = slash(text, 0);
    if e == text.len() {
        return None;
    }
    let n = number(text, e + 1)?;
    let kind = upgrade_kind(text, n.end)?;
    if !text::part::all_ascii(&text[0..e]) {
        return None;
    }
    Some(PathView {
        kind,
        exact: n.plain,
        first: Place { start: 0, len: e },
        second: Place { start: 0, len: 0 },
        a: n.value,
        b: 0,
    })
}
