// The oldest state of a client.
#![tactic(auto)]

ghost use Rattle.std.specs.Prelude.{◌≡◌, ◌+◌, ◌≤◌, length, drop, ◌∷◌};
ghost use Rattle.text.specs.Part.{starts_with};
ghost use Rattle.writers.specs.Texts.{parent_text};
ghost use Rattle.book.specs.Book.{Current, Counts};
ghost use Rattle.book_oldest.specs.Oldest.{state_of, older, OldestIs, Oldest};

use book::check::{check_book, is_owner};
use book::find::keys_before;
use book_form::{HEAD, SLOT, Version, key_at};
use path::{Pair, Revision, RevisionHeight, RevisionNumber, is_below};
use text::part::same_at;
use text::refusal::{ABSENT, BAD_BOOK, BAD_OWNER};
use writers::parents::write_consensus_parent;

// The revision in a key, where it is a state of the client.
fn state_in(key: &[u8], client: &[u8]) -> Option<Revision>
    ensures { result ≡ state_of client.now key.now }
{
    let Ok(v) = walk::walk_view(key) else {
        return None;
    };
    let kind = v.kind;
    if kind != 5 {
        return None;
    }
    if !text::part::equal(reading::part(key, v.first), client) {
        return None;
    }
    Some(Revision {
        number: RevisionNumber(v.a),
        height: RevisionHeight(v.b),
    })
}

// The lower one, where there are two.
fn older(x: Option<Revision>, y: Option<Revision>) -> Option<Revision>
    ensures { result ≡ older x y }
{
    let Some(p) = x else {
        return y;
    };
    let Some(q) = y else {
        return x;
    };
    if is_below(q, p) { y } else { x }
}

// Whether the record of the slot at `at` is the owner's, and its key stands below `parent`.
fn is_below_parent(book: &[u8], at: usize, owner: u8, parent: &[u8]) -> bool
    requires { at + 257 ≤ length book.now }
    ensures { result ≡ starts_with (owner ∷ parent.now) (Current.record_of (drop at book.now)).0 }
{
    book[at] == owner && same_at(key_at(book, at + 1), 0, parent)
}

// The oldest state of the owner's client in a book with n records. All its states stand below `parent`, so together in key order.
fn oldest_below(book: &[u8], n: usize, owner: u8, client: &[u8], parent: &[u8]) -> Option<Revision>
    requires counts { Counts Current book.now n }
    requires parent_value { parent.now ≡ parent_text client.now }
    ensures { OldestIs Current book.now owner client.now result }
{
    let mut best = None;
    for i in keys_before(book, n, owner, parent)..n {
        if !is_below_parent(book, HEAD + SLOT * i, owner, parent) {
            break;
        }
        best = older(best, state_in(key_at(book, HEAD + SLOT * i + 1), client));
    }
    best
}

// The same, for a client of at most 64 bytes.
fn oldest_state(book: &[u8], n: usize, owner: u8, client: &[u8]) -> Option<Revision>
    requires counts { Counts Current book.now n }
    requires client_len_bound { length client.now ≤ 64 }
    ensures { OldestIs Current book.now owner client.now result }
{
    let mut field = [0; 88];
    let end = write_consensus_parent(&mut field, 0, client);
    oldest_below(book, n, owner, client, &field[0..end])
}

// The oldest state of an owner's client: 9, 23, the client checks, 12.
pub fn oldest(book: &[u8], owner: u8, client: &[u8]) -> Pair
    ensures { Oldest Current book.now owner client.now result }
{
    let Some(n) = check_book(book, Version::Three) else {
        return Pair {
            refusal: BAD_BOOK,
            number: 0,
            height: 0,
        };
    };
    if !is_owner(owner) {
        return Pair {
            refusal: BAD_OWNER,
            number: 0,
            height: 0,
        };
    }
    let refusal = identifiers::validate::validate_client_identifier(client);
    if refusal != 0 {
        return Pair {
            refusal,
            number: 0,
            height: 0,
        };
    }
    let Some(p) = oldest_state(book, n, owner, client) else {
        return Pair {
            refusal: ABSENT,
            number: 0,
            height: 0,
        };
    };
    Pair {
        refusal: 0,
        number: p.number.0,
        height: p.height.0,
    }
}
