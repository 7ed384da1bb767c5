// Whether a buffer is a book.
ghost use Rattle.std.specs.Prelude.{◌≡◌, ◌+◌, ◌≤◌, ◌<◌, eqb, length, drop, get_or};
ghost use Rattle.text.specs.Part.{every};
ghost use Rattle.book_records.specs.Calls.{Exact, is_owner};
ghost use Rattle.book_form.specs.Form.{slot_at, QuotasFit};
ghost use Rattle.book_form.specs.Counted.{stored};
ghost use Rattle.book_form.specs.Version.{form_of, owners_of, V3};
ghost use Rattle.book_form.specs.Tells.{Tells};
ghost use Rattle.book.specs.Book.{Judged};
ghost use Rattle.book.specs.Check.{Slotted, Framed, owner_ok, SlotGood, SlotsGood, Rising, Parted, SharesFit, Shares};

use book_form::{
    HEAD, Quotas, SLOT, Version, all_zero, compare_next, count_of, head, header_ok, key_at, lead,
    quotas_of, slot_at, slot_ok, width,
};

// Whether that is an owner: 1 or 2.
pub fn is_owner(owner: u8) -> bool
    ensures { result ≡ is_owner owner }
{
    owner == 1 || owner == 2
}

// The number of slots of a book that is as long as `book`: 0 where no book is.
pub fn slots_of(book: &[u8], version: Version) -> usize
    ensures { Slotted (form_of version) book.now result }
{
    let size = book.len();
    let head = head(version);
    if size < head {
        return 0;
    }
    let width = width(version);
    if (size - head) % width != 0 {
        return 0;
    }
    let slots = (size - head) / width;
    if 200 < slots {
        return 0;
    }
    slots
}

// Whether so many slots are enough for both quotas.
pub fn sum_fits(quotas: Quotas, slots: usize) -> bool
    ensures { Tells result (QuotasFit V3 slots quotas) }
{
    let one = quotas.one;
    if slots < one {
        return false;
    }
    quotas.two <= slots - one
}

// The same of a book's own quotas: before version 3 there is one, every slot.
pub(crate) fn quotas_fit(book: &[u8], slots: usize, version: Version) -> bool
    requires { (form_of version).head ≤ length book.now }
    ensures { Tells result (QuotasFit (form_of version) slots ((owners_of version).told book.now)) }
{
    match version {
        Version::One => true,
        Version::Two => true,
        Version::Three => sum_fits(quotas_of(book), slots),
    }
}

// The number of records by the header, where the length and the header are a book's.
pub(crate) fn frame(book: &[u8], version: Version) -> Option<usize>
    ensures { Framed (form_of version) book.now result }
{
    let slots = slots_of(book, version);
    if slots == 0 {
        return None;
    }
    if !header_ok(book, version) {
        return None;
    }
    if !quotas_fit(book, slots, version) {
        return None;
    }
    let n = count_of(book);
    if slots < n {
        return None;
    }
    Some(n)
}

// Whether the key behind its length at `at` reads, and is its own rendering.
pub(crate) fn key_exact(book: &[u8], at: usize) -> bool
    requires { at + 256 ≤ length book.now }
    ensures { Tells result (Exact (stored book.now at)) }
{
    let Ok(v) = walk::walk_view(key_at(book, at)) else {
        return false;
    };
    v.exact
}

// Whether the slot at `at` begins as one of its version does: in version 3 with an owner.
pub(crate) fn owner_ok(book: &[u8], at: usize, version: Version) -> bool
    requires { at < length book.now }
    ensures { result ≡ owner_ok version (get_or book.now at 0) }
{
    match version {
        Version::One => true,
        Version::Two => true,
        Version::Three => is_owner(book[at]),
    }
}

// Whether slot i is a record's.
pub(crate) fn slot_good(book: &[u8], i: usize, version: Version) -> bool
    requires { (i < 200) × (slot_at (form_of version) (i + 1) ≤ length book.now) }
    ensures { Tells result (SlotGood (form_of version) book.now i) }
{
    let at = slot_at(version, i);
    if !owner_ok(book, at, version) {
        return false;
    }
    if !slot_ok(book, at, version) {
        return false;
    }
    key_exact(book, at + lead(version))
}

// Whether the first n slots are records'.
pub(crate) fn slots_good(book: &[u8], n: usize, version: Version) -> bool
    requires { (n ≤ 200) × (slot_at (form_of version) n ≤ length book.now) }
    ensures { Tells result (SlotsGood (form_of version) book.now n) }
{
    for i in 0..n {
        if !slot_good(book, i, version) {
            return false;
        }
    }
    true
}

// Whether the keys of the first n slots rise.
pub(crate) fn rising(book: &[u8], n: usize, version: Version) -> bool
    requires { (n ≤ 200) × (slot_at (form_of version) n ≤ length book.now) }
    ensures { Tells result (Rising (form_of version) book.now n) }
{
    for i in 1..n {
        if !compare_next(book, slot_at(version, i - 1), version).is_lt() {
            return false;
        }
    }
    true
}

// How many of the first n slots of version 3 are owner 1's, which stand first.
pub(crate) fn first_count(book: &[u8], n: usize) -> usize
    requires n_bound { (n ≤ 200) × (slot_at V3 n ≤ length book.now) }
    requires slots_good { SlotsGood V3 book.now n × Rising V3 book.now n }
    ensures { Parted V3 book.now n result }
{
    let mut lo = 0;
    let mut hi = n;
    while lo < hi {
        let mid = lo + (hi - lo) / 2;
        if book[HEAD + SLOT * mid] < 2 {
            lo = mid + 1;
        } else {
            hi = mid;
        }
    }
    lo
}

// The same in each version: before version 3 all slots are owner 1's.
pub(crate) fn first_of(book: &[u8], n: usize, version: Version) -> usize
    requires n_bound { (n ≤ 200) × (slot_at (form_of version) n ≤ length book.now) }
    requires slots_good { SlotsGood (form_of version) book.now n × Rising (form_of version) book.now n }
    ensures { Parted (form_of version) book.now n result }
{
    match version {
        Version::One => n,
        Version::Two => n,
        Version::Three => first_count(book, n),
    }
}

// Whether no owner has more of n slots than its quota, where `first` are owner 1's.
pub(crate) fn shares_fit(quotas: Quotas, n: usize, first: usize) -> bool
    requires { first ≤ n }
    ensures { Tells result (SharesFit quotas n first) }
{
    if quotas.one < first {
        return false;
    }
    n - first <= quotas.two
}

// The same of a book's own quotas: before version 3 there is one, every slot.
pub(crate) fn shares_ok(book: &[u8], n: usize, first: usize, version: Version) -> bool
    requires { (first ≤ n) × ((form_of version).head ≤ length book.now) }
    ensures { Tells result (Shares version book.now n first) }
{
    match version {
        Version::One => true,
        Version::Two => true,
        Version::Three => shares_fit(quotas_of(book), n, first),
    }
}

// Whether all bytes behind the first n slots are zero.
pub(crate) fn blank_after(book: &[u8], n: usize, version: Version) -> bool
    requires { (n ≤ 200) × (slot_at (form_of version) n ≤ length book.now) }
    ensures { result ≡ every (λ b. eqb b 0) (drop (slot_at (form_of version) n) book.now) }
{
    let start = slot_at(version, n);
    let end = book.len();
    all_zero(&book[start..end])
}

// Whether a buffer is a book of a version, and with how many records.
pub fn check_book(book: &[u8], version: Version) -> Option<usize>
    ensures { Judged (form_of version) book.now result }
{
    let n = frame(book, version)?;
    if !slots_good(book, n, version) {
        return None;
    }
    if !rising(book, n, version) {
        return None;
    }
    let first = first_of(book, n, version);
    if !shares_ok(book, n, first, version) {
        return None;
    }
    if !blank_after(book, n, version) {
        return None;
    }
    Some(n)
}
