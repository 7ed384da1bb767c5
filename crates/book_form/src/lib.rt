// The book's bytes: movers, slots and the header.
#![tactic(auto)]

ghost use Rattle.std.specs.Prelude.{◌≡◌, ◌+◌, ◌*◌, ◌-◌, ◌≤◌, ◌<◌, eqb, length, get_or, take, drop, [], ◌∷◌, ◌++◌};
ghost use Rattle.text.specs.Order.{cmp};
ghost use Rattle.text.specs.Part.{every, same};
ghost use Rattle.text.specs.Put.{put};
ghost use Rattle.text.specs.Stands.{Stands};
ghost use Rattle.book_form.specs.Moves.{raised, lowered};
ghost use Rattle.book_form.specs.Form.{zeros, slot_at, inserted, removed, Filled, SlotOk};
ghost use Rattle.book_form.specs.Counted.{counted, stored, CountedOk};
ghost use Rattle.book_form.specs.Version.{form_of, owners_of, field_of, FieldOk, is_plain, number_of, header, count_in, quotas_in, V3};
ghost use Rattle.book_form.specs.declared.Version.TheVariants.{Two};
ghost use Rattle.book_form.specs.Compare.{ordering_of, Agree, high_sum, Apart};
ghost use Rattle.book_form.specs.Tells.{Tells};

use std::cmp::Ordering;
use text::part::eight;
use text::put::{write_byte, write_text};

// The bytes of the header, of a key with its length, and of a slot: in version 3, which the calls take, and in those before it.
pub const HEAD: usize = 12;

pub const KEY: usize = 256;

pub const SLOT: usize = 322;

const HEAD_OLD: usize = 8;

const SLOT_ONE: usize = 288;

const SLOT_TWO: usize = 321;

// The versions of the book. The calls take and make version 3; an older book is only converted.
#[derive(Clone, Copy)]
pub enum Version {
    One,
    Two,
    Three,
}

// How many records each owner may have.
#[derive(Clone, Copy)]
pub struct Quotas {
    pub one: usize,
    pub two: usize,
}

// The bytes of the header.
pub fn head(version: Version) -> usize
    ensures { result ≡ (form_of version).head }
{
    match version {
        Version::One => HEAD_OLD,
        Version::Two => HEAD_OLD,
        Version::Three => HEAD,
    }
}

// The bytes of a slot.
pub fn width(version: Version) -> usize
    ensures { result ≡ (form_of version).width }
{
    match version {
        Version::One => SLOT_ONE,
        Version::Two => SLOT_TWO,
        Version::Three => SLOT,
    }
}

// The bytes of a slot ahead of the key's length: in version 3 the owner.
pub fn lead(version: Version) -> usize
    ensures { result ≡ (owners_of version).lead }
{
    match version {
        Version::One => 0,
        Version::Two => 0,
        Version::Three => 1,
    }
}

// Where slot i starts.
pub fn slot_at(version: Version, i: usize) -> usize
    requires { i ≤ 200 }
    ensures { result ≡ slot_at (form_of version) i }
{
    match version {
        Version::One => HEAD_OLD + SLOT_ONE * i,
        Version::Two => HEAD_OLD + SLOT_TWO * i,
        Version::Three => HEAD + SLOT * i,
    }
}

// Moves the bytes from `from` up to `to` up by `by` places.
fn raise(book: &mut [u8], from: usize, to: usize, by: usize)
    requires from_le_to { from ≤ to }
    requires by_in_bounds { to + by ≤ length book.old }
    ensures { book.new ≡ raised from to by book.old }
{
    book.copy_within(from..to, from + by);
}

// Moves the bytes from `from` up to `to` down by `by` places.
fn lower(book: &mut [u8], from: usize, to: usize, by: usize)
    requires by_le_from { (by ≤ from) × (from ≤ to) }
    requires to_in_bounds { to ≤ length book.old }
    ensures { book.new ≡ lowered from to by book.old }
{
    book.copy_within(from..to, from - by);
}

// Writes n zeros over what stands in `book` from `from` on.
pub fn clear(book: &mut [u8], from: usize, n: usize)
    requires { from + n ≤ length book.old }
    ensures { book.new ≡ put book.old from (zeros n) }
{
    book[from..from + n].fill(0);
}

// Writes a text of at most `most` bytes behind its length, from `at` on, and fills its field with zeros.
fn put_counted(book: &mut [u8], at: usize, most: usize, s: &[u8])
    requires { (at + 1 + most ≤ length book.old) × (most ≤ 255) × (length s.now ≤ most) }
    ensures { book.new ≡ put book.old at (counted most s.now) }
{
    write_byte(book, at, s.len() as u8);
    write_text(book, at + 1, s);
    clear(book, at + 1 + s.len(), most - s.len());
}

// Writes the fields of a key and its value, from `at` on: a slot of version 2, and one of version 3 behind its owner.
pub fn put_fields(book: &mut [u8], at: usize, key: &[u8], value: &[u8])
    requires { (at + 321 ≤ length book.old) × (length key.now ≤ 255) × (length value.now ≤ 64) }
    ensures { book.new ≡ put book.old at (counted 255 key.now ++ counted 64 value.now) }
{
    put_counted(book, at, 255, key);
    put_counted(book, at + KEY, 64, value);
}

// Writes a record's slot, from `at` on.
pub fn put_slot(book: &mut [u8], at: usize, owner: u8, key: &[u8], value: &[u8])
    requires { (at + 322 ≤ length book.old) × (length key.now ≤ 255) × (length value.now ≤ 64) }
    ensures { book.new ≡ put book.old at (V3.slot (owner ∷ key.now, value.now)) }
{
    write_byte(book, at, owner);
    put_fields(book, at + 1, key, value);
}

// Writes what the header of each version begins with, for n records.
pub fn put_front(book: &mut [u8], version: Version, n: usize)
    requires n_bound { n < 65536 }
    requires in_bounds { 8 ≤ length book.old }
    ensures { book.new ≡ put book.old 0 (header (number_of version) n []) }
{
    let count = (n as u16).to_be_bytes();
    let front = [
        72,
        80,
        66,
        0,
        version_number(version),
        count[0],
        count[1],
        0,
    ];
    write_text(book, 0, &front);
}

// Writes the header of a book with n records.
pub fn put_header(book: &mut [u8], n: usize, quotas: Quotas)
    requires n_bound { (n < 65536) × (quotas.one < 65536) × (quotas.two < 65536) }
    requires in_bounds { 12 ≤ length book.old }
    ensures { book.new ≡ put book.old 0 (V3.header quotas n) }
{
    let one = (quotas.one as u16).to_be_bytes();
    let two = (quotas.two as u16).to_be_bytes();
    put_front(book, Version::Three, n);
    write_text(book, 8, &[one[0], one[1], two[0], two[1]]);
}

// The quotas that the header gives.
pub fn quotas_of(book: &[u8]) -> Quotas
    requires { 12 ≤ length book.now }
    ensures { (result ≡ quotas_in book.now) × (result.one < 65536) × (result.two < 65536) }
{
    Quotas {
        one: text::read_big_endian(book, 8, 2) as usize,
        two: text::read_big_endian(book, 10, 2) as usize,
    }
}

// Puts a record in at slot number `slot` of a book with `count` records.
pub fn insert(book: &mut [u8], slot: usize, count: usize, owner: u8, key: &[u8], value: &[u8])
    requires slot_le_count { slot ≤ count }
    requires count_bound { count < 200 }
    requires count_in_bounds { 12 + 322 * (count + 1) ≤ length book.old }
    requires key_len_bound { (length key.now ≤ 255) × (length value.now ≤ 64) }
    ensures { book.new ≡ inserted V3 (quotas_in book.old) slot count book.old (owner ∷ key.now, value.now) }
{
    let quotas = quotas_of(book);
    let at = HEAD + SLOT * slot;
    let end = HEAD + SLOT * count;
    raise(book, at, end, SLOT);
    put_slot(book, at, owner, key, value);
    put_header(book, count + 1, quotas);
}

// Moves slot i down by `by` slots.
pub fn lower_slot(book: &mut [u8], i: usize, by: usize)
    requires by_le_i { (by ≤ i) × (i < 200) }
    requires i_in_bounds { 12 + 322 * (i + 1) ≤ length book.old }
    ensures { book.new ≡ lowered (slot_at V3 i) (slot_at V3 (i + 1)) (322 * by) book.old }
{
    lower(book, HEAD + SLOT * i, HEAD + SLOT * (i + 1), SLOT * by);
}

// Fills slot i of a book with `count` records from `gap` slots behind it, or clears it where no record stands there.
fn fill_slot(book: &mut [u8], i: usize, gap: usize, count: usize)
    requires i_lt_count { (i < count) × (gap ≤ count) × (count ≤ 200) }
    requires count_in_bounds { 12 + 322 * count ≤ length book.old }
    ensures { Filled V3 book.old i gap count book.new }
{
    if i + gap < count {
        lower_slot(book, i + gap, gap);
    } else {
        clear(book, HEAD + SLOT * i, SLOT);
    }
}

// Takes the records of the slots from `start` up to `end` out of a book with `count` records. One slot at a time: then none is moved
// over itself, and zeros are not written as one long run.
pub fn close_gap(book: &mut [u8], start: usize, end: usize, count: usize)
    requires start_le_end { (start ≤ end) × (end ≤ count) × (count ≤ 200) }
    requires count_in_bounds { 12 + 322 * count ≤ length book.old }
    ensures { book.new ≡ removed V3 (quotas_in book.old) start end count book.old }
{
    let quotas = quotas_of(book);
    let gap = end - start;
    for i in start..count {
        fill_slot(book, i, gap, count);
    }
    put_header(book, count - gap, quotas);
}

// How `key` stands to the key behind its length at `at`, where the first `start` bytes are the same.
fn compare_from(book: &[u8], at: usize, key: &[u8], start: usize) -> Ordering
    requires at_in_bounds { at + 256 ≤ length book.now }
    requires agree { Agree key.now book.now at start }
    ensures { result ≡ ordering_of (cmp key.now (stored book.now at)) }
{
    let other = key_at(book, at);
    (&key[start..]).cmp(&&other[start..])
}

// How an owner's key stands to the key in the slot at `at`: the owner decides first.
pub fn compare_key(book: &[u8], at: usize, owner: u8, key: &[u8]) -> Ordering
    requires { at + 257 ≤ length book.now }
    ensures { result ≡ ordering_of (cmp (owner ∷ key.now) (V3.record_of (drop at book.now)).0) }
{
    match owner.cmp(&book[at]) {
        Ordering::Equal => compare_from(book, at + 1, key, 0),
        decided => decided,
    }
}

// Eight bytes as a number, the first byte highest: one load and a turn of its bytes.
fn high_eight(s: &[u8], at: usize) -> u64
    requires { at + 8 ≤ length s.now }
    ensures { result ≡ high_sum s.now at }
{
    u64::from_be_bytes([
        s[at],
        s[at + 1],
        s[at + 2],
        s[at + 3],
        s[at + 4],
        s[at + 5],
        s[at + 6],
        s[at + 7],
    ])
}

// The place of the first eight bytes, up to place m, that differ from a and from b on; m where none do.
fn apart(s: &[u8], a: usize, b: usize, m: usize) -> usize
    requires { (a + m + 8 ≤ length s.now) × (b + m + 8 ≤ length s.now) }
    ensures { Apart s.now a b m result }
{
    for i in (0..m).step_by(8) {
        if eight(s, a + i) != eight(s, b + i) {
            return i;
        }
    }
    m
}

// How the key behind its length at `at` stands to that `by` bytes behind it.
fn compare_stored(book: &[u8], at: usize, by: usize) -> Ordering
    requires { at + by + 256 ≤ length book.now }
    ensures { result ≡ ordering_of (cmp (stored book.now at) (stored book.now (at + by))) }
{
    let key = key_at(book, at);
    let n = key.len().min(usize::from(book[at + by]));
    if n < 8 {
        return compare_from(book, at + by, key, 0);
    }
    let i = apart(book, at + 1, at + by + 1, n - 8);
    let x = high_eight(book, at + 1 + i);
    let y = high_eight(book, at + by + 1 + i);
    match x.cmp(&y) {
        Ordering::Equal => compare_from(book, at + by, key, n),
        decided => decided,
    }
}

// How the owner of the slot at `at` stands to that of the next slot: before version 3 there is none.
fn compare_owners(book: &[u8], at: usize, version: Version) -> Ordering
    requires { at + (form_of version).width + (form_of version).width ≤ length book.now }
    ensures { result ≡ ordering_of (cmp (take (owners_of version).lead (drop at book.now)) (take (owners_of version).lead (drop (at + (form_of version).width) book.now))) }
{
    match version {
        Version::One => Ordering::Equal,
        Version::Two => Ordering::Equal,
        Version::Three => book[at].cmp(&book[at + SLOT]),
    }
}

// How the key in the slot at `at` stands to that in the next slot: the owner decides first.
pub fn compare_next(book: &[u8], at: usize, version: Version) -> Ordering
    requires { at + (form_of version).width + (form_of version).width ≤ length book.now }
    ensures { result ≡ ordering_of (cmp ((form_of version).record_of (drop at book.now)).0 ((form_of version).record_of (drop (at + (form_of version).width) book.now)).0) }
{
    match compare_owners(book, at, version) {
        Ordering::Equal => compare_stored(book, at + lead(version), width(version)),
        decided => decided,
    }
}

// The number of records that the header gives.
pub fn count_of(book: &[u8]) -> usize
    requires { 8 ≤ length book.now }
    ensures { result ≡ count_in book.now }
{
    text::read_big_endian(book, 5, 2) as usize
}

// The text that stands at `at` behind its length, as a part of the book.
pub fn text_at(book: &[u8], at: usize) -> &[u8]
    requires { at + 1 + get_or book.now at 0 ≤ length book.now }
    ensures { Stands result book.entry (at + 1) (stored book.now at) }
{
    let start = at + 1;
    let end = start + usize::from(book[at]);
    &book[start..end]
}

// The key behind its length at `at`, as a part of the book.
pub fn key_at(book: &[u8], at: usize) -> &[u8]
    requires { at + 256 ≤ length book.now }
    ensures { Stands result book.entry (at + 1) (stored book.now at) }
{
    text_at(book, at)
}

// Whether each byte of `s` is zero, where `s` is short. The loop has no early exit, so that it can take many bytes at a time.
fn blank(s: &[u8]) -> bool
    ensures { result ≡ every (λ b. eqb b 0) s.now }
{
    let mut all = 0;
    for &b in s {
        all |= b;
    }
    all == 0
}

// Whether each byte of `s` is zero, by parts of 128 bytes: the last one may share bytes with the one before it.
pub fn all_zero(s: &[u8]) -> bool
    ensures { result ≡ every (λ b. eqb b 0) s.now }
{
    if s.len() < 128 {
        return blank(s);
    }
    for part in s.chunks_exact(128) {
        if !blank(part) {
            return false;
        }
    }
    blank(&s[s.len() - 128..])
}

// Whether a text of at most `most` bytes stands at `at` behind its length, its field filled with zeros.
fn counted_ok(book: &[u8], at: usize, most: usize) -> bool
    requires { at + 1 + most ≤ length book.now }
    ensures { Tells result (CountedOk most (drop at book.now)) }
{
    let n = usize::from(book[at]);
    if most < n {
        return false;
    }
    let start = at + 1 + n;
    let end = at + 1 + most;
    all_zero(&book[start..end])
}

// Whether the field at `at` is that of a value of 1 to 64 bytes.
fn value_ok(book: &[u8], at: usize) -> bool
    requires { at + 65 ≤ length book.now }
    ensures { Tells result (FieldOk (field_of Two) (drop at book.now)) }
{
    if book[at] == 0 {
        return false;
    }
    counted_ok(book, at, 64)
}

// Whether a value stands in its slot without its length: any 32 bytes of version 1.
fn is_plain(version: Version) -> bool
    ensures { result ≡ is_plain version }
{
    matches!(version, Version::One)
}

// Whether the slot at `at` is a record's: the bytes behind its key, and from version 2 on behind its value, are zero.
pub fn slot_ok(book: &[u8], at: usize, version: Version) -> bool
    requires { at + (form_of version).width ≤ length book.now }
    ensures { Tells result (SlotOk (form_of version) (drop at book.now)) }
{
    let start = at + lead(version);
    if !counted_ok(book, start, 255) {
        return false;
    }
    if is_plain(version) {
        return true;
    }
    value_ok(book, start + KEY)
}

// The number of a version, as the header has it.
fn version_number(version: Version) -> u8
    ensures { result ≡ number_of version }
{
    match version {
        Version::One => 1,
        Version::Two => 2,
        Version::Three => 3,
    }
}

// Whether the header begins as that of a book with as many records as it says.
pub fn header_ok(book: &[u8], version: Version) -> bool
    requires { 8 ≤ length book.now }
    ensures { result ≡ same (take 8 book.now) (header (number_of version) (count_in book.now) []) }
{
    let head = [72, 80, 66, 0, version_number(version), book[5], book[6], 0];
    text::part::equal(&book[0..8], &head)
}
