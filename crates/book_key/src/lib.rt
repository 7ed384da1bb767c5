// The key of a call: the rendering of its text, owned, in the field of 255 bytes that a book keeps.
#![tactic(auto)]

ghost use Rattle.std.specs.Prelude.{◌≡◌, length};
ghost use Rattle.text.specs.Put.{left};
ghost use Rattle.path.specs.Read.{read_path};
ghost use Rattle.path.specs.View.{viewed_by};
ghost use Rattle.book_records.specs.Calls.{key_for, key_answer};
ghost use Rattle.book_key.specs.Field.{loose_by, kind_seen, made_key};

use book_records::Manner;
use key::write_read;
use path::{PathView, Refusal};
use text::Written;
use text::refusal::{KEY_TOO_LONG, LOOSE, NO_ROOM};
use walk::walk_view;

// A key: its bytes, zero after the last, and their number.
#[derive(Drop)]
pub struct Key {
    pub bytes: [u8; 255],
    pub len: usize,
}

// The key of a text and its kind.
#[derive(Drop)]
pub struct MadeKey {
    pub kind: u8,
    pub key: Key,
}

// Whether a call of that manner refuses what was read for its spelling.
fn is_loose(manner: Manner, read: Result<PathView, Refusal>) -> bool
    ensures { result ≡ loose_by manner read }
{
    let Ok(v) = read else {
        return false;
    };
    match manner {
        Manner::Plain => !v.exact,
        Manner::Lenient => false,
    }
}

// The kind of what was read; 0 where nothing was.
fn kind_seen(read: Result<PathView, Refusal>) -> u8
    ensures { result ≡ kind_seen read }
{
    let Ok(v) = read else {
        return 0;
    };
    v.kind
}

// Writes the key of a text, as it was read, into a field of 255 bytes: 1, 2, 3, in a plain call 20, 10. A refusal leaves the field as
// it was.
fn key_into(
    manner: Manner,
    text: &[u8],
    read: Result<PathView, Refusal>,
    field: &mut [u8],
) -> Written
    requires { (read ≡ viewed_by (read_path text.now)) × (length field.old ≡ 255) }
    ensures value { result ≡ key_answer (key_for manner text.now) }
    ensures field_after { field.new ≡ left (key_for manner text.now) field.old }
{
    if is_loose(manner, read) {
        return Written {
            refusal: LOOSE,
            length: 0,
        };
    }
    let w = write_read(text, read, field);
    if w.refusal == NO_ROOM {
        return Written {
            refusal: KEY_TOO_LONG,
            length: 0,
        };
    }
    w
}

// The key of a text in a call of that manner: 1, 2, 3 (17, 18, 19), in a plain call 20, 10.
pub fn key_of(manner: Manner, text: &[u8]) -> Result<MadeKey, u8>
    ensures { result ≡ made_key (key_for manner text.now) }
{
    let mut bytes = [0u8; 255];
    let read = walk_view(text);
    let made = key_into(manner, text, read, &mut bytes);
    let refusal = made.refusal;
    if refusal != 0 {
        return Err(refusal);
    }
    let len = made.length as usize;
    Ok(MadeKey {
        kind: kind_seen(read),
        key: Key { bytes, len },
    })
}
