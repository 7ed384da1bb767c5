// The record book: new, write, remove, lookup. Each call checks the book once.
#![tactic(auto)]

pub mod check;
pub mod find;
pub mod record;

ghost use Rattle.std.specs.Prelude.{◌≡◌};
ghost use Rattle.book.specs.Book.{Current};
ghost use Rattle.book.specs.Outcome.{Recorded, Removed, Looked, Made, quotas};
ghost use Rattle.book.specs.Open.{Opens};

use book_form::{Quotas, Version, clear, put_header};
use book_key::{Key, key_of};
use book_records::Manner;
use check::{check_book, is_owner, slots_of, sum_fits};
use record::{look_record, put_record, take_record};
use text::Written;
use text::refusal::{BAD_BOOK, BAD_LENGTH, BAD_OWNER, FULL, NO_ROOM, RETIRED};

// What a call starts from: the number of the book's records, and the key of the text with its kind.
#[derive(Drop)]
pub struct Opened {
    pub count: usize,
    pub kind: u8,
    pub key: Key,
}

// Checks the book, the owner and the text, as every call does: 9, 23, 1, 2, 3 (17, 18, 19), in a plain call 20, 10.
pub(crate) fn open_call(manner: Manner, book: &[u8], owner: u8, text: &[u8]) -> Result<Opened, u8>
    ensures { Opens manner book.now owner text.now result }
{
    let Some(count) = check_book(book, Version::Three) else {
        return Err(BAD_BOOK);
    };
    if !is_owner(owner) {
        return Err(BAD_OWNER);
    }
    let made = key_of(manner, text)?;
    let kind = made.kind;
    let key = made.key;
    Ok(Opened { count, kind, key })
}

// Copies what the path of a text holds, and answers its length: 9, 23, 1, 2, 3 (17, 18, 19), in a plain call 20, 10, 4, 12.
pub fn lookup(manner: Manner, book: &[u8], owner: u8, text: &[u8], out: &mut [u8]) -> Written
    ensures { Looked Current manner book.now owner text.now out.old result out.new }
{
    let opened = match open_call(manner, book, owner, text) {
        Ok(opened) => opened,
        Err(refusal) => return Written { refusal, length: 0 },
    };
    if out.len() < 64 {
        return Written {
            refusal: NO_ROOM,
            length: 0,
        };
    }
    let key = opened.key;
    let bytes = key.bytes;
    let len = key.len;
    look_record(book, opened.count, owner, &bytes[0..len], out)
}

// Adds or replaces what the path of a text holds: 9, 23, 1, 2, 3 (17, 18, 19), in a plain call 20, 10, 25 for kind 8, 6, 11.
pub fn write(manner: Manner, book: &mut [u8], owner: u8, text: &[u8], value: &[u8]) -> u8
    ensures { Recorded Current manner book.old owner text.now value.now result book.new }
{
    let opened = match open_call(manner, book, owner, text) {
        Ok(opened) => opened,
        Err(refusal) => return refusal,
    };
    if opened.kind == 8 {
        return RETIRED;
    }
    if value.len() < 1 {
        return BAD_LENGTH;
    }
    if 64 < value.len() {
        return BAD_LENGTH;
    }
    let key = opened.key;
    let bytes = key.bytes;
    let len = key.len;
    put_record(book, opened.count, owner, &bytes[0..len], value)
}

// Removes what the path of a text holds: 9, 23, 1, 2, 3 (17, 18, 19), in a plain call 20, 10, 12.
pub fn remove(manner: Manner, book: &mut [u8], owner: u8, text: &[u8]) -> u8
    ensures { Removed Current manner book.old owner text.now result book.new }
{
    let opened = match open_call(manner, book, owner, text) {
        Ok(opened) => opened,
        Err(refusal) => return refusal,
    };
    let key = opened.key;
    let bytes = key.bytes;
    let len = key.len;
    take_record(book, opened.count, owner, &bytes[0..len])
}

// Makes a book of a buffer, with no records: 9 where the length is no book's, then 11 where it has not the slots for the quotas.
pub fn new_book(book: &mut [u8], quota1: u16, quota2: u16) -> u8
    ensures { Made Current (quotas quota1 quota2) book.old result book.new }
{
    let slots = slots_of(book, Version::Three);
    if slots == 0 {
        return BAD_BOOK;
    }
    let one = quota1 as usize;
    let two = quota2 as usize;
    if !sum_fits(Quotas { one, two }, slots) {
        return FULL;
    }
    let size = book.len();
    clear(book, 0, size);
    put_header(book, 0, Quotas { one, two });
    0
}
