// Where a key stands in a book.
ghost use Rattle.std.specs.Prelude.{◌+◌, ◌*◌, ◌<◌, ◌∷◌};
ghost use Rattle.book.specs.Book.{Current, Counts};
ghost use Rattle.book.specs.Find.{Placed, Spotted};

use book_form::{HEAD, SLOT, compare_key};

// How many keys come before an owner's `key`, in a book with n records.
pub fn keys_before(book: &[u8], n: usize, owner: u8, key: &[u8]) -> usize
    requires { Counts Current book.now n }
    ensures { Placed Current book.now (owner ∷ key.now) n result }
{
    let mut lo = 0;
    let mut hi = n;
    while lo < hi {
        let mid = lo + (hi - lo) / 2;
        if compare_key(book, HEAD + SLOT * mid, owner, key).is_gt() {
            lo = mid + 1;
        } else {
            hi = mid;
        }
    }
    lo
}

// The slot that holds an owner's `key`, in a book with n records, or as an error the one that it would have.
pub(crate) fn find(book: &[u8], n: usize, owner: u8, key: &[u8]) -> Result<usize, usize>
    requires { Counts Current book.now n }
    ensures { Spotted Current book.now (owner ∷ key.now) n result }
{
    let p = keys_before(book, n, owner, key);
    if p < n && compare_key(book, HEAD + SLOT * p, owner, key).is_eq() {
        Ok(p)
    } else {
        Err(p)
    }
}
