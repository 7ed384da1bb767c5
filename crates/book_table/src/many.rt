// Filling a table, and many lookups at once.
ghost use Rattle.std.specs.Prelude.{◌≡◌, ◌+◌, ◌≤◌, true, length};
ghost use Rattle.text.specs.Part.{same};
ghost use Rattle.book_records.specs.Calls.{is_owner};
ghost use Rattle.book_form.specs.Form.{key_at};
ghost use Rattle.book.specs.Book.{Current, Counts};
ghost use Rattle.book_table.specs.Table.{filled};
ghost use Rattle.book_table.specs.Lines.{lines, Line, Next};
ghost use Rattle.book_table.specs.Many.{Fills, Entered, LooksMany};

use crate::fill_table;
use crate::look::look_text;
use book::check::{check_book, is_owner};
use book_form::Version;
use text::Written;
use text::part::equal;
use text::put::{write_byte, write_text};
use text::refusal::{BAD_BOOK, BAD_OWNER, BAD_TABLE, NO_ROOM};

// Fills the first 512 bytes of `out`: 9, 4.
pub fn fill(book: &[u8], out: &mut [u8]) -> u8
    ensures { Fills Current book.now out.old result out.new }
{
    let Some(n) = check_book(book, Version::Three) else {
        return BAD_BOOK;
    };
    if out.len() < 512 {
        return NO_ROOM;
    }
    let mut table = [0u8; 512];
    fill_table(book, n, &mut table);
    write_text(out, 0, &table);
    0
}

// Whether a table is the one that filling gives.
fn table_ok(book: &[u8], n: usize, table: &[u8]) -> bool
    requires { Counts Current book.now n }
    ensures { result ≡ same table.now (filled (key_at Current book.now) n) }
{
    let mut own = [0u8; 512];
    fill_table(book, n, &mut own);
    equal(table, &own)
}

// Where the text that starts at i ends.
fn line_end(s: &[u8], i: usize) -> usize
    requires { i ≤ length s.now }
    ensures { Line s.now i result }
{
    for j in i..s.len() {
        if s[j] == b'\n' {
            return j;
        }
    }
    s.len()
}

// Where the text after it starts.
fn line_next(s: &[u8], j: usize) -> usize
    ensures { Next s.now j result }
{
    if j < s.len() { j + 1 } else { j }
}

// How many texts there are.
fn count_lines(s: &[u8]) -> usize
    ensures { result ≡ length (lines s.now) }
{
    let mut count = 0;
    let mut i = 0;
    while i < s.len() {
        i = line_next(s, line_end(s, i));
        count += 1;
    }
    count
}

// Writes the 66 bytes of an owner's text, from `at` on.
fn put_entry(book: &[u8], n: usize, table: &[u8], owner: u8, text: &[u8], out: &mut [u8], at: usize)
    requires counts { Counts Current book.now n × (table.now ≡ filled (key_at Current book.now) n) }
    requires owner_value { (is_owner owner ≡ true) × (at + 66 ≤ length out.old) }
    ensures { Entered Current book.now owner text.now out.old at out.new }
{
    let mut value = [0u8; 64];
    let w = look_text(book, n, table, owner, text, &mut value);
    let refusal = w.refusal;
    let len = w.length as u8;
    write_byte(out, at, refusal);
    write_byte(out, at + 1, len);
    write_text(out, at + 2, &value);
}

// Writes 66 bytes for each text of `texts`, each of which byte 10 ends: 9, 23, 22, 4.
pub fn look_many(book: &[u8], owner: u8, table: &[u8], texts: &[u8], out: &mut [u8]) -> Written
    ensures { LooksMany Current book.now owner table.now texts.now out.old result out.new }
{
    let Some(n) = check_book(book, Version::Three) else {
        return Written {
            refusal: BAD_BOOK,
            length: 0,
        };
    };
    if !is_owner(owner) {
        return Written {
            refusal: BAD_OWNER,
            length: 0,
        };
    }
    if !table_ok(book, n, table) {
        return Written {
            refusal: BAD_TABLE,
            length: 0,
        };
    }
    if out.len() / 66 < count_lines(texts) {
        return Written {
            refusal: NO_ROOM,
            length: 0,
        };
    }
    let mut at = 0;
    let mut i = 0;
    while i < texts.len() {
        let end = line_end(texts, i);
        put_entry(book, n, table, owner, &texts[i..end], out, at);
        at += 66;
        i = line_next(texts, end);
    }
    Written {
        refusal: 0,
        length: at as u64,
    }
}
