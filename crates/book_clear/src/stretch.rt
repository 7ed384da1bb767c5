// The slots of a client's states, times and heights, which stand together in key order.
ghost use Rattle.std.specs.Prelude.{◌≡◌, ◌∷◌, [], ◌++◌, ◌+◌, ◌≤◌, length};
ghost use Rattle.text.specs.Put.{Wrote};
ghost use Rattle.writers.specs.Texts.{parent_text};
ghost use Rattle.book.specs.Book.{Current, Counts};
ghost use Rattle.book_clear.specs.Notes.{Stretched, Own, Blank, NotedFrom};

use crate::role::{Role, role_of};
use book::find::keys_before;
use book_form::{HEAD, SLOT, key_at};
use std::ops::Range;
use text::put::write_byte;
use writers::parents::write_consensus_parent;

// Writes `clients/C/consensusStates` and one byte more.
fn write_stem(out: &mut [u8], client: &[u8], last: u8) -> usize
    requires { length (parent_text client.now) + 1 ≤ length out.old }
    ensures { Wrote out.old 0 (parent_text client.now ++ (last ∷ [])) result out.new }
{
    let end = write_consensus_parent(out, 0, client);
    write_byte(out, end, last)
}

// Where the keys stand that begin with `clients/C/consensusStates/`: before the keys from `clients/C/consensusStates0` on, for 0 is
// the byte after the slash.
pub(crate) fn stretch_of(book: &[u8], n: usize, owner: u8, client: &[u8]) -> Range<usize>
    requires counts { Counts Current book.now n }
    requires client_len_bound { length client.now ≤ 64 }
    ensures { Stretched book.now owner client.now n result.start result.end }
{
    let mut field = [0; 89];
    let slash = write_stem(&mut field, client, b'/');
    let from = keys_before(book, n, owner, &field[0..slash]);
    let zero = write_stem(&mut field, client, b'0');
    let stop = keys_before(book, n, owner, &field[0..zero]);
    from..stop
}

// Notes what these slots are to the client.
pub(crate) fn note_slots(book: &[u8], slots: Range<usize>, client: &[u8], roles: &mut [Role])
    requires own { Own book.now client.now slots.start slots.end }
    requires roles_len { length roles.old ≡ 200 }
    requires blank { Blank roles.old }
    ensures noted_from { NotedFrom book.now client.now slots.start slots.end roles.new }
    ensures roles_len_2 { length roles.new ≡ 200 }
{
    for i in slots.start..slots.end {
        roles[i] = role_of(key_at(book, HEAD + SLOT * i + 1), client);
    }
}
