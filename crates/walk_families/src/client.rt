// Kinds 4 to 8.
ghost use Rattle.std.specs.Prelude.{◌≡◌, true, ◌≤◌, length};
ghost use Rattle.text.specs.Bytes.{bytes};
ghost use Rattle.text.specs.Part.{starts_with};
ghost use Rattle.path.specs.Read.{read_first};
ghost use Rattle.walk_families.specs.Flat.{flat, client_kinds};
ghost use Rattle.walk_families.specs.Client.{WordKind, UpdateKind, Consensus};

use crate::bare;
use path::{PathView, Place};
use walk_scan::name::plain_length;
use walk_scan::number::number;
use walk_words::{
    is_client_connections, is_client_state, is_consensus_states, is_processed_height,
    is_processed_time,
};

// The kind that a client and one word more make: none where no such word ends the text.
fn word_kind(text: &[u8], e: usize) -> Option<u8>
    requires { e ≤ length text.now }
    ensures { WordKind text.now e result }
{
    if text.len() - e != 12 {
        return None;
    }
    if is_client_state(text, e) {
        return Some(4);
    }
    is_client_connections(text, e).then_some(8)
}

// The kind by what follows R-h.
fn update_kind(text: &[u8], q: usize) -> Option<u8>
    requires { q ≤ length text.now }
    ensures { UpdateKind text.now q result }
{
    match text.len() - q {
        0 => Some(5),
        14 => is_processed_time(text, q).then_some(6),
        16 => is_processed_height(text, q).then_some(7),
        _ => None,
    }
}

// Kinds 5 to 7: R-h from `at` on, after a client of `len` bytes.
fn consensus(text: &[u8], at: usize, len: usize) -> Option<PathView>
    requires { at ≤ length text.now }
    ensures { Consensus text.now at len result }
{
    let r = number(text, at)?;
    let dash = r.end;
    if dash == text.len() || text[dash] != b'-' {
        return None;
    }
    let h = number(text, dash + 1)?;
    let kind = update_kind(text, h.end)?;
    Some(PathView {
        kind,
        exact: r.plain && h.plain,
        first: Place { start: 8, len },
        second: Place { start: 0, len: 0 },
        a: r.value,
        b: h.value,
    })
}

// A text that starts with `clients/`.
pub fn client(text: &[u8]) -> Option<PathView>
    requires { starts_with (bytes "clients/") text.now ≡ true }
    ensures { result ≡ flat text.now (read_first client_kinds text.now) }
{
    let len = plain_length(text, 8, 9, 64)?;
    let e = 8 + len;
    if let Some(kind) = word_kind(text, e) {
        return Some(bare(kind, 8, len));
    }
    if !is_consensus_states(text, e) {
        return None;
    }
    consensus(text, e + 17, len)
}
