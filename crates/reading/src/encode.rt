// What a path shows, as 26 bytes for the node. Each writer needs room, writes from `at` on, and returns the place after what it
// wrote.
ghost use Rattle.std.specs.Prelude.{◌≡◌, cond, ◌∷◌, [], ◌++◌, ◌+◌, ◌≤◌, length};
ghost use Rattle.text.specs.Number.{big_endian};
ghost use Rattle.text.specs.Put.{Wrote, text, answer, left};
ghost use Rattle.path.specs.Read.{place_bytes};
ghost use Rattle.reading.specs.Encode.{view_bytes};

use path::{PathView, Place};
use text::put::write_byte;
use text::refusal::NO_ROOM;
use text::{Written, write_big_endian};

fn mark(exact: bool) -> u8
    ensures { result ≡ cond exact 1 0 }
{
    if exact { 1 } else { 0 }
}

// Kind and mark, a byte each.
fn write_head(out: &mut [u8], at: usize, kind: u8, mark: u8) -> usize
    requires { at + 2 ≤ length out.old }
    ensures { Wrote out.old at (kind ∷ mark ∷ []) result out.new }
{
    let next = write_byte(out, at, kind);
    write_byte(out, next, mark)
}

// Start and length, 2 bytes each.
fn write_place(out: &mut [u8], at: usize, p: Place) -> usize
    requires { at + 4 ≤ length out.old }
    ensures { Wrote out.old at (place_bytes p) result out.new }
{
    let next = write_big_endian(out, at, p.start as u64, 2);
    write_big_endian(out, next, p.len as u64, 2)
}

fn write_places(out: &mut [u8], at: usize, first: Place, second: Place) -> usize
    requires { at + 8 ≤ length out.old }
    ensures { Wrote out.old at (place_bytes first ++ place_bytes second) result out.new }
{
    let next = write_place(out, at, first);
    write_place(out, next, second)
}

// 8 bytes each.
fn write_numbers(out: &mut [u8], at: usize, a: u64, b: u64) -> usize
    requires { at + 16 ≤ length out.old }
    ensures { Wrote out.old at (big_endian 8 a ++ big_endian 8 b) result out.new }
{
    let next = write_big_endian(out, at, a, 8);
    write_big_endian(out, next, b, 8)
}

// What the kind carries: the places, then the numbers.
fn write_carried(out: &mut [u8], at: usize, v: PathView) -> usize
    requires { at + 24 ≤ length out.old }
    ensures { Wrote out.old at ((place_bytes v.first ++ place_bytes v.second) ++ (big_endian 8 v.a ++ big_endian 8 v.b)) result out.new }
{
    let first = v.first;
    let second = v.second;
    let next = write_places(out, at, first, second);
    write_numbers(out, next, v.a, v.b)
}

// The 26 bytes.
fn write_bytes(out: &mut [u8], v: PathView) -> usize
    requires { 26 ≤ length out.old }
    ensures { Wrote out.old 0 (view_bytes v) result out.new }
{
    let next = write_head(out, 0, v.kind, mark(v.exact));
    write_carried(out, next, v)
}

// Writes the 26 bytes, or refuses where there is too little room.
pub fn write_view(v: PathView, out: &mut [u8]) -> Written
    ensures value { result ≡ answer (text (view_bytes v)) (length out.old) }
    ensures out_after { out.new ≡ left (text (view_bytes v)) out.old }
{
    if out.len() < 26 {
        return Written {
            refusal: NO_ROOM,
            length: 0,
        };
    }
    let end = write_bytes(out, v);
    Written {
        refusal: 0,
        length: end as u64,
    }
}
