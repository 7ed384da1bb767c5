// The second reader of path texts: a walk over the bytes. The first eight choose the family.
#![tactic(auto)]

mod counter;
mod dispatch;
mod opening;

ghost use Rattle.std.specs.Prelude.{◌≡◌, ◌++◌, length};
ghost use Rattle.text.specs.Put.{text, left};
ghost use Rattle.path.specs.Kinds.{kinds};
ghost use Rattle.path.specs.Read.{read_first, read_path, reading_bytes, read_fault};
ghost use Rattle.path.specs.View.{viewed_by};
ghost use Rattle.walk_families.specs.Flat.{flat, listed, upgrades};
ghost use Rattle.reading.specs.Encode.{view_bytes};
ghost use Rattle.walk.specs.Bytes.{put_fault};

use crate::counter::{counter, counter_here};
use path::typed::typed_path;
use path::{PathView, ReadPath, Reading, Refusal};
use reading::encode::write_view;
use reading::fault;
use text::Fault;
use walk_families::upgrade::upgrade;

// Kinds 4 to 19: 18 and 19 get their turn wherever no other kind is read.
fn walk_rest(text: &[u8]) -> Option<PathView>
    ensures { result ≡ flat text.now (read_first (listed ++ upgrades) text.now) }
{
    dispatch::by_word(text).or_else(|| upgrade(text))
}

// Walks a text.
fn walk_all(text: &[u8]) -> Option<PathView>
    ensures { result ≡ flat text.now (read_first kinds text.now) }
{
    counter(text).or_else(|| walk_rest(text))
}

// Reads a text as a path in its flat form. Only a text that is none is looked at again, for the reason.
pub fn walk_view(text: &[u8]) -> Result<PathView, Refusal>
    ensures { result ≡ viewed_by (read_path text.now) }
{
    if 4096 < text.len() {
        return Err(Refusal::TooLong);
    }
    let Some(w) = walk_all(text) else {
        return Err(fault(text));
    };
    Ok(w)
}

// Reads a text as a path.
pub fn walk_path(text: &[u8]) -> Reading
    ensures { result ≡ read_path text.now }
{
    if 4096 < text.len() {
        return Err(Refusal::TooLong);
    }
    let Some(w) = walk_all(text) else {
        return Err(fault(text));
    };
    Ok(ReadPath {
        path: typed_path(w),
        exact: w.exact,
    })
}

// The 26 bytes of what was walked.
fn put_walk(w: PathView, out: &mut [u8]) -> Fault
    ensures value { result ≡ put_fault w (length out.old) }
    ensures out_after { out.new ≡ left (text (view_bytes w)) out.old }
{
    let written = write_view(w, out);
    Fault {
        refusal: written.refusal,
        place: 0,
    }
}

// The reading of a text as 26 bytes, for the node, straight from the walk. Kinds 1 to 3 are answered without a call of the
// one large function that the compiler makes of the rest.
pub fn write_walk(text: &[u8], out: &mut [u8]) -> Fault
    ensures value { result ≡ read_fault text.now (length out.old) }
    ensures out_after { out.new ≡ left (reading_bytes text.now) out.old }
{
    if 4096 < text.len() {
        return path::fault_of(Refusal::TooLong);
    }
    if let Some(c) = counter_here(text) {
        return put_walk(c, out);
    }
    let Some(w) = walk_rest(text) else {
        return path::fault_of(fault(text));
    };
    put_walk(w, out)
}
