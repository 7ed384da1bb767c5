// The records that do not stay taken out of a book.
ghost use Rattle.std.specs.Prelude.{◌≡◌, ◌+◌, ◌*◌, ◌-◌, ◌≤◌, ◌<◌, length};
ghost use Rattle.book_form.specs.Moves.{lowered};
ghost use Rattle.book.specs.Book.{Current, Counts};
ghost use Rattle.book_clear.specs.Stay.{leaves_at, leaves};
ghost use Rattle.book_clear.specs.Sweep.{Swept};

use crate::role::Role;
use crate::states::Stay;
use book_form::{close_gap, lower_slot};
use path::{Revision, is_below};

// Whether what has this revision does not stay.
fn leaves_at(stay: Stay, p: Revision) -> bool
    ensures { result ≡ leaves_at stay p }
{
    match stay {
        Stay::All => false,
        Stay::Nothing => true,
        Stay::From(q) => is_below(p, q),
    }
}

fn leaves(stay: Stay, role: Role) -> bool
    ensures { result ≡ leaves stay role }
{
    match role {
        Role::State(p) => leaves_at(stay, p),
        Role::Beside(p) => leaves_at(stay, p),
        Role::Other => false,
    }
}

// Moves slot i down to slot `kept`, where that is another.
fn move_down(book: &mut [u8], i: usize, kept: usize)
    requires { (kept ≤ i) × (i < 200) × (12 + 322 * (i + 1) ≤ length book.old) }
    ensures { book.new ≡ lowered (12 + 322 * i) (12 + 322 * (i + 1)) (322 * (i - kept)) book.old }
{
    if kept < i {
        lower_slot(book, i, i - kept);
    }
}

// Takes the records that do not stay out of a book with n records, and answers how many went. Each slot moves at most once.
pub(crate) fn sweep(book: &mut [u8], n: usize, roles: &[Role], stay: Stay) -> usize
    requires counts { Counts Current book.old n }
    requires roles_len { length roles.now ≡ 200 }
    ensures { Swept book.old roles.now stay result book.new }
{
    let mut kept = 0;
    for i in 0..n {
        if !leaves(stay, roles[i]) {
            move_down(book, i, kept);
            kept += 1;
        }
    }
    close_gap(book, kept, n, n);
    n - kept
}
