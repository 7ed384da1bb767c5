// Iteration keys, which stand in the byte order of (revision number, revision height) pairs: written, read, and blocks of them.
#![tactic(auto)]

pub mod block;

ghost use Rattle.std.specs.Prelude.{◌≡◌, ◌+◌, ◌≤◌, length, take, drop};
ghost use Rattle.text.specs.Put.{text, answer, left};
ghost use Rattle.text.specs.Refusal.{bad_iter_key};
ghost use Rattle.iteration.specs.Key.{iteration_key, revision_at, key_revision, revision_of, answered, pair_of};

use path::{Pair, Revision, RevisionHeight, RevisionNumber};
use text::part::same_at;
use text::refusal::{BAD_ITER_KEY, NO_ROOM};
use text::{Written, read_big_endian};

// Writes the iteration key of a consensus state, 38 bytes.
pub fn iteration_key(number: RevisionNumber, height: RevisionHeight, out: &mut [u8]) -> Written
    ensures value { result ≡ answer (text (iteration_key number.0 height.0)) (length out.old) }
    ensures out_after { out.new ≡ left (text (iteration_key number.0 height.0)) out.old }
{
    if out.len() < 38 {
        return Written {
            refusal: NO_ROOM,
            length: 0,
        };
    }
    let first = text::put::write_text(out, 0, b"iterateConsensusStates");
    let second = text::write_big_endian(out, first, number.0, 8);
    let end = text::write_big_endian(out, second, height.0, 8);
    Written {
        refusal: 0,
        length: end as u64,
    }
}

// The revision in the key that stands in `s` at `at`.
pub(crate) fn revision_at(s: &[u8], at: usize) -> Revision
    requires { at + 38 ≤ length s.now }
    ensures { result ≡ revision_at at s.now }
{
    Revision {
        number: RevisionNumber(read_big_endian(s, at + 22, 8)),
        height: RevisionHeight(read_big_endian(s, at + 30, 8)),
    }
}

// Reads the 38 bytes at `at`.
pub(crate) fn key_at(s: &[u8], at: usize) -> Option<Revision>
    requires { at + 38 ≤ length s.now }
    ensures { revision_of result ≡ key_revision (take 38 (drop at s.now)) }
{
    if !same_at(s, at, b"iterateConsensusStates") {
        return None;
    }
    Some(revision_at(s, at))
}

// Reads an iteration key: 15 where the length or the word is another.
pub fn read_iteration_key(key: &[u8]) -> Result<Revision, u8>
    ensures { result ≡ answered bad_iter_key (key_revision key.now) }
{
    if key.len() != 38 {
        return Err(BAD_ITER_KEY);
    }
    key_at(key, 0).ok_or(BAD_ITER_KEY)
}

// An answer as it crosses to C.
pub fn pair_of(answer: Result<Revision, u8>) -> Pair
    ensures { result ≡ pair_of answer }
{
    match answer {
        Ok(p) => Pair {
            refusal: 0,
            number: p.number.0,
            height: p.height.0,
        },
        Err(refusal) => Pair {
            refusal,
            number: 0,
            height: 0,
        },
    }
}
