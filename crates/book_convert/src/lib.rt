// Older books turned into newer ones: version 1 into version 2, and version 2 into version 3.
#![tactic(auto)]

ghost use Rattle.std.specs.Prelude.{◌<◌};
ghost use Rattle.book_form.specs.Version.{V1, V2, V3};
ghost use Rattle.book.specs.Outcome.{quotas};
ghost use Rattle.book_convert.specs.Convert.{same, firsts, Converted, ConvertedOwners, Ready, CopiedAs};

use book::check::{check_book, slots_of, sum_fits};
use book_form::{
    KEY, Quotas, Version, clear, key_at, put_fields, put_front, put_header, put_slot, slot_at,
    text_at,
};
use text::refusal::{BAD_BOOK, FULL, NO_ROOM};

// Makes a book of version 2 with the n records of the book `old` of version 1, the first one first.
fn copy_records(old: &[u8], n: usize, new: &mut [u8])
    requires { Ready V1 V2 old.now n new.old }
    ensures { CopiedAs V1 V2 tt same old.now new.new }
{
    let size = new.len();
    clear(new, 0, size);
    put_front(new, Version::Two, n);
    for i in 0..n {
        let at = slot_at(Version::One, i);
        let start = at + KEY;
        let end = start + 32;
        put_fields(
            new,
            slot_at(Version::Two, i),
            key_at(old, at),
            &old[start..end],
        );
    }
}

// Makes a book of version 3 with the `count` records of the book `old` of version 2, all of them owner 1's.
fn copy_owned(old: &[u8], count: usize, new: &mut [u8], quotas: Quotas)
    requires ready { Ready V2 V3 old.now count new.old }
    requires one_bound { (quotas.one < 65536) × (quotas.two < 65536) }
    ensures { CopiedAs V2 V3 quotas firsts old.now new.new }
{
    let size = new.len();
    clear(new, 0, size);
    put_header(new, count, quotas);
    for i in 0..count {
        let at = slot_at(Version::Two, i);
        put_slot(
            new,
            slot_at(Version::Three, i),
            1,
            key_at(old, at),
            text_at(old, at + KEY),
        );
    }
}

// Turns the book `old` of version 1 into one of version 2 with as many slots, in `new`: 9, 4.
pub fn convert(old: &[u8], new: &mut [u8]) -> u8
    ensures { Converted old.now new.old result new.new }
{
    let Some(n) = check_book(old, Version::One) else {
        return BAD_BOOK;
    };
    if new.len() != slot_at(Version::Two, slots_of(old, Version::One)) {
        return NO_ROOM;
    }
    copy_records(old, n, new);
    0
}

// Turns the book `old` of version 2 into one of version 3 with as many slots, in `new`, all records owner 1's: 9, 4, then 11 where
// it has not the slots for the quotas, or owner 1's quota not the room for the records.
pub fn convert_owners(old: &[u8], new: &mut [u8], quota1: u16, quota2: u16) -> u8
    ensures { ConvertedOwners old.now new.old (quotas quota1 quota2) result new.new }
{
    let Some(n) = check_book(old, Version::Two) else {
        return BAD_BOOK;
    };
    let slots = slots_of(old, Version::Two);
    if new.len() != slot_at(Version::Three, slots) {
        return NO_ROOM;
    }
    let one = quota1 as usize;
    let two = quota2 as usize;
    if !sum_fits(Quotas { one, two }, slots) {
        return FULL;
    }
    if one < n {
        return FULL;
    }
    copy_owned(old, n, new, Quotas { one, two });
    0
}
