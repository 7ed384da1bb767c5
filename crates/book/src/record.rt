// Calls on the key of a book.
ghost use Rattle.std.specs.Prelude.{◌≡◌, ◌+◌, ◌*◌, ◌≤◌, true, ◌∷◌, length, Ok, Err};
ghost use Rattle.book_records.specs.Calls.{ValueFits, is_owner};
ghost use Rattle.book_records.specs.Act.{writes, removes, looks};
ghost use Rattle.book.specs.Book.{Current, Counts, FullIs};
ghost use Rattle.book.specs.Outcome.{Changed, Found};
ghost use Rattle.book.specs.Find.{Spotted};

use crate::check::first_count;
use crate::find::find;
use book_form::{HEAD, KEY, SLOT, close_gap, insert, put_slot, quotas_of, text_at};
use text::Written;
use text::put::write_text;
use text::refusal::{ABSENT, FULL};

// Copies the value of `key` to the start of `out`, and answers its length.
pub(crate) fn look_record(book: &[u8], n: usize, owner: u8, key: &[u8], out: &mut [u8]) -> Written
    requires counts { Counts Current book.now n }
    requires in_bounds { 64 ≤ length out.old }
    ensures { Found Current book.now (looks (owner ∷ key.now)) out.old result out.new }
{
    let Ok(p) = find(book, n, owner, key) else {
        return Written {
            refusal: ABSENT,
            length: 0,
        };
    };
    let n = write_text(out, 0, text_at(book, HEAD + SLOT * p + 1 + KEY));
    Written {
        refusal: 0,
        length: n as u64,
    }
}

// Whether an owner has as many records as its quota says.
pub(crate) fn is_full(book: &[u8], n: usize, owner: u8) -> bool
    requires { Counts Current book.now n × (is_owner owner ≡ true) }
    ensures { FullIs book.now owner result }
{
    let quotas = quotas_of(book);
    let first = first_count(book, n);
    if owner == 1 {
        return first == quotas.one;
    }
    n - first == quotas.two
}

// Writes over the record in slot p.
pub(crate) fn replace(
    book: &mut [u8],
    n: usize,
    p: usize,
    owner: u8,
    key: &[u8],
    value: &[u8],
) -> u8
    requires counts { Counts Current book.old n × Spotted Current book.old (owner ∷ key.now) n (Ok p) }
    requires key_len_bound { (length key.now ≤ 255) × ValueFits value.now }
    ensures { Changed Current book.old (writes (owner ∷ key.now) value.now) result book.new }
{
    put_slot(book, HEAD + SLOT * p, owner, key, value);
    0
}

// Puts a record in at slot p, where its owner's quota has room.
pub(crate) fn add(book: &mut [u8], n: usize, p: usize, owner: u8, key: &[u8], value: &[u8]) -> u8
    requires counts { Counts Current book.old n × Spotted Current book.old (owner ∷ key.now) n (Err p) × (is_owner owner ≡ true) }
    requires key_len_bound { (length key.now ≤ 255) × ValueFits value.now }
    ensures { Changed Current book.old (writes (owner ∷ key.now) value.now) result book.new }
{
    if is_full(book, n, owner) {
        return FULL;
    }
    insert(book, p, n, owner, key, value);
    0
}

// Adds or replaces the value of `key`.
pub(crate) fn put_record(book: &mut [u8], n: usize, owner: u8, key: &[u8], value: &[u8]) -> u8
    requires counts { Counts Current book.old n × (is_owner owner ≡ true) }
    requires key_len_bound { (length key.now ≤ 255) × ValueFits value.now }
    ensures { Changed Current book.old (writes (owner ∷ key.now) value.now) result book.new }
{
    match find(book, n, owner, key) {
        Ok(p) => replace(book, n, p, owner, key, value),
        Err(p) => add(book, n, p, owner, key, value),
    }
}

// Removes the record of `key`.
pub(crate) fn take_record(book: &mut [u8], n: usize, owner: u8, key: &[u8]) -> u8
    requires { Counts Current book.old n }
    ensures { Changed Current book.old (removes (owner ∷ key.now)) result book.new }
{
    let Ok(p) = find(book, n, owner, key) else {
        return ABSENT;
    };
    close_gap(book, p, p + 1, n);
    0
}
