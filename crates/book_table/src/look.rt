// Lookups in a book by the table that filling gives. Each answers what the plain lookup answers.
ghost use Rattle.std.specs.Prelude.{◌≡◌, ◌≤◌, true, ◌∷◌, length};
ghost use Rattle.book_records.specs.declared.Manner.TheVariants.{Plain};
ghost use Rattle.book_records.specs.Act.{looks};
ghost use Rattle.book_records.specs.Calls.{is_owner};
ghost use Rattle.book_form.specs.Form.{key_at};
ghost use Rattle.book.specs.Book.{Current, Counts};
ghost use Rattle.book.specs.Outcome.{Found, Looked};
ghost use Rattle.book_table.specs.Table.{filled};

use crate::probe;
use book_form::{HEAD, KEY, SLOT, text_at};
use book_key::key_of;
use book_records::Manner;
use text::Written;
use text::put::write_text;
use text::refusal::ABSENT;

// Copies the value of an owner's `key` to the start of `out`, and answers its length.
fn look_key(book: &[u8], n: usize, table: &[u8], owner: u8, key: &[u8], out: &mut [u8]) -> Written
    requires counts { Counts Current book.now n × (table.now ≡ filled (key_at Current book.now) n) }
    requires in_bounds { 64 ≤ length out.old }
    ensures { Found Current book.now (looks (owner ∷ key.now)) out.old result out.new }
{
    let Some(p) = probe(book, n, table, owner, key) else {
        return Written {
            refusal: ABSENT,
            length: 0,
        };
    };
    let n = write_text(out, 0, text_at(book, HEAD + SLOT * p + 1 + KEY));
    Written {
        refusal: 0,
        length: n as u64,
    }
}

// Copies what a text that is its own rendering holds of an owner's to the start of `out`, and answers its length.
pub(crate) fn look_text(
    book: &[u8],
    n: usize,
    table: &[u8],
    owner: u8,
    text: &[u8],
    out: &mut [u8],
) -> Written
    requires counts { Counts Current book.now n × (table.now ≡ filled (key_at Current book.now) n) }
    requires owner_value { (is_owner owner ≡ true) × (64 ≤ length out.old) }
    ensures { Looked Current Plain book.now owner text.now out.old result out.new }
{
    let made = match key_of(Manner::Plain, text) {
        Ok(made) => made,
        Err(refusal) => return Written { refusal, length: 0 },
    };
    let key = made.key;
    let bytes = key.bytes;
    let len = key.len;
    look_key(book, n, table, owner, &bytes[0..len], out)
}
