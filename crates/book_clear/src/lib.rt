// Old states of a client cleared out of a book.
#![tactic(auto)]

pub mod role;
pub mod states;
mod stretch;
mod sweep;

ghost use Rattle.std.specs.Prelude.{◌≡◌};
ghost use Rattle.identifiers.specs.Check.{check_of};
ghost use Rattle.identifiers.specs.Check as check;
ghost use Rattle.book.specs.Book.{Current, Counts};
ghost use Rattle.book_clear.specs.Clear.{Cleared};
ghost use Rattle.book_clear.specs.Whole.{ClearedOf};

use book::check::{check_book, is_owner};
use book_form::Version;
use role::Role;
use states::stay_of;
use stretch::{note_slots, stretch_of};
use sweep::sweep;
use text::refusal::{BAD_BOOK, BAD_OWNER};

// What a call that removes records answers: a refusal number, 0 where it is done, and how many records went.
#[repr(C)]
#[derive(Clone, Copy)]
pub struct Count {
    pub refusal: u8,
    pub count: u64,
}

// Clears out the states of a client, and answers how many records went.
fn clear_client(book: &mut [u8], n: usize, owner: u8, client: &[u8], keep: u64) -> usize
    requires counts { Counts Current book.old n }
    requires client_value { check_of check.client client.now ≡ 0 }
    ensures { ClearedOf book.old owner client.now keep result book.new }
{
    let mut roles = [Role::Other; 200];
    let slots = stretch_of(book, n, owner, client);
    note_slots(book, slots, client, &mut roles);
    let stay = stay_of(&roles, n, keep);
    sweep(book, n, &roles, stay)
}

// Keeps the `keep` states of an owner's client with the greatest revisions, and removes the others, and each processed time and
// height with a revision below those kept: 9, 23, the client checks.
pub fn clear(book: &mut [u8], owner: u8, client: &[u8], keep: u64) -> Count
    ensures { Cleared Current book.old owner client.now keep result book.new }
{
    let Some(n) = check_book(book, Version::Three) else {
        return Count {
            refusal: BAD_BOOK,
            count: 0,
        };
    };
    if !is_owner(owner) {
        return Count {
            refusal: BAD_OWNER,
            count: 0,
        };
    }
    let refusal = identifiers::validate::validate_client_identifier(client);
    if refusal != 0 {
        return Count { refusal, count: 0 };
    }
    Count {
        refusal: 0,
        count: clear_client(book, n, owner, client, keep) as u64,
    }
}
