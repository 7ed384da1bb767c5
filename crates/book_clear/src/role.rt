// What the keys of a book are to a client, noted slot by slot.
ghost use Rattle.std.specs.Prelude.{◌≡◌, true, ◌≤◌, ◌<◌, length};
ghost use Rattle.text.specs.Part.{starts_with};
ghost use Rattle.identifiers.specs.Check.{check_of};
ghost use Rattle.identifiers.specs.Check as check;
ghost use Rattle.book_records.specs.Calls.{Exact};
ghost use Rattle.book_clear.specs.Clear.{role_at, role_of};
ghost use Rattle.book_clear.specs.Notes.{stem, PlainState, revision_of, revision_at};

use path::{Revision, RevisionHeight, RevisionNumber};
use walk_scan::number::number;

// A state of the client, the processed time or height of one, or neither.
#[derive(Clone, Copy)]
pub enum Role {
    State(Revision),
    Beside(Revision),
    Other,
}

// The revision of a key that has R-h in plain digits from `at` to its end: a state, where a client's stem is ahead of them.
fn plain_state(key: &[u8], at: usize) -> Option<Revision>
    requires { at ≤ length key.now }
    ensures { PlainState key.now at result }
{
    let r = number(key, at)?;
    if !r.plain {
        return None;
    }
    let dash = r.end;
    if dash == key.len() || key[dash] != b'-' {
        return None;
    }
    let h = number(key, dash + 1)?;
    if !h.plain || h.end != key.len() {
        return None;
    }
    Some(Revision {
        number: RevisionNumber(r.value),
        height: RevisionHeight(h.value),
    })
}

// What a kind and a revision are.
fn role_at(kind: u8, p: Revision) -> Role
    ensures { result ≡ role_at kind p }
{
    match kind {
        5 => Role::State(p),
        6 | 7 => Role::Beside(p),
        _ => Role::Other,
    }
}

// What an exact key is that begins as the client's do, by the walk. A client that has as many bytes is the same then.
fn role_walked(key: &[u8], client: &[u8]) -> Role
    requires { Exact key.now × (starts_with (stem client.now) key.now ≡ true) }
    ensures { result ≡ role_of client.now key.now }
{
    let Ok(v) = walk::walk_view(key) else {
        return Role::Other;
    };
    let first = v.first;
    if first.len != client.len() {
        return Role::Other;
    }
    let p = Revision {
        number: RevisionNumber(v.a),
        height: RevisionHeight(v.b),
    };
    role_at(v.kind, p)
}

// The same: most are states, whose numbers are all that is read.
pub(crate) fn role_of(key: &[u8], client: &[u8]) -> Role
    requires { Exact key.now × (starts_with (stem client.now) key.now ≡ true) × (check_of check.client client.now ≡ 0) }
    ensures { result ≡ role_of client.now key.now }
{
    match plain_state(key, client.len() + 25) {
        Some(state) => Role::State(state),
        None => role_walked(key, client),
    }
}

// The revision that a role has; 0-0 where it has none.
fn revision_of(role: Role) -> Revision
    ensures { result ≡ revision_of role }
{
    match role {
        Role::State(p) => p,
        Role::Beside(p) => p,
        Role::Other => Revision {
            number: RevisionNumber(0),
            height: RevisionHeight(0),
        },
    }
}

// The revision that is noted of slot i.
pub(crate) fn revision_at(roles: &[Role], i: usize) -> Revision
    requires { i < length roles.now }
    ensures { result ≡ revision_at roles.now i }
{
    revision_of(roles[i])
}
