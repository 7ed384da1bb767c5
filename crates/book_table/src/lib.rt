// A table of 512 buckets beside a book, by which the slot of a key is found. A bucket holds a slot's number counted from 1, or 0.
#![tactic(auto)]

mod hash;
mod look;
pub mod many;

ghost use Rattle.std.specs.Prelude.{◌≡◌, ◌<◌, ◌∷◌, length};
ghost use Rattle.book_form.specs.Form.{key_at};
ghost use Rattle.book.specs.Book.{Current, Counts};
ghost use Rattle.book_table.specs.Table.{free_spot, filled};
ghost use Rattle.book_table.specs.Probe.{Told};

use book_form::{HEAD, SLOT, clear, compare_key, key_at};
use hash::home;
use text::put::write_byte;

// The first free bucket from h on, going round.
fn free_spot(table: &[u8], h: usize) -> usize
    requires { (length table.now ≡ 512) × (h < 512) }
    ensures { (result ≡ free_spot table.now h) × (result < 512) }
{
    for d in 0..512 {
        let p = (h + d) % 512;
        if table[p] == 0 {
            return p;
        }
    }
    h
}

// Fills the table from a book with n records.
pub(crate) fn fill_table(book: &[u8], n: usize, table: &mut [u8])
    requires { Counts Current book.now n × (length table.old ≡ 512) }
    ensures { table.new ≡ filled (key_at Current book.now) n }
{
    clear(table, 0, 512);
    for i in 0..n {
        let at = HEAD + SLOT * i;
        let p = free_spot(table, home(book[at], key_at(book, at + 1)));
        write_byte(table, p, (i + 1) as u8);
    }
}

// The slot that holds an owner's `key`, in a book with n records, by the table that filling gives.
pub(crate) fn probe(book: &[u8], n: usize, table: &[u8], owner: u8, key: &[u8]) -> Option<usize>
    requires { Counts Current book.now n × (table.now ≡ filled (key_at Current book.now) n) }
    ensures { Told (key_at Current book.now) n (owner ∷ key.now) result }
{
    let h = home(owner, key);
    for d in 0..512 {
        let v = usize::from(table[(h + d) % 512]);
        if v == 0 {
            return None;
        }
        if compare_key(book, HEAD + SLOT * (v - 1), owner, key).is_eq() {
            return Some(v - 1);
        }
    }
    None
}
