// The key of a text: the rendering of what it reads as.
#![tactic(auto)]

ghost use Rattle.std.specs.Prelude.{◌≡◌, ◌+◌, ◌≤◌, length};
ghost use Rattle.text.specs.Put.{put, answer, left};
ghost use Rattle.path.specs.Kinds.{carried};
ghost use Rattle.path.specs.Read.{read_path, key_of, render, parts_of};
ghost use Rattle.path.specs.Text.{shown_of};
ghost use Rattle.path.specs.View.{viewed_by};
ghost use Rattle.key.specs.Key.{shown_at, shown_by};

use path::{PathView, Reading, Refusal};
use reading::part;
use render::fit::fit_kind;
use text::Written;
use writers::kinds::write_kind;

// Writes the rendering of a path whose places are in the text, and returns the place after it.
pub fn write_rendering(out: &mut [u8], at: usize, text: &[u8], v: PathView) -> usize
    requires le_kind { (1 ≤ v.kind) × (v.kind ≤ 19) }
    requires b_in_bounds { at + length (render (parts_of v.kind) (carried (shown_of text.now v.first) (shown_of text.now v.second) v.a v.b)) ≤ length out.old }
    ensures value { result ≡ at + length (render (parts_of v.kind) (carried (shown_of text.now v.first) (shown_of text.now v.second) v.a v.b)) }
    ensures out_after { out.new ≡ put out.old at (render (parts_of v.kind) (carried (shown_of text.now v.first) (shown_of text.now v.second) v.a v.b)) }
{
    write_kind(
        out,
        at,
        v.kind,
        part(text, v.first),
        part(text, v.second),
        v.a,
        v.b,
    )
}

// Writes the rendering of a path with the parts of the text that stand at its places: 1, then 4.
fn write_seen(text: &[u8], v: PathView, out: &mut [u8]) -> Written
    requires { (1 ≤ v.kind) × (v.kind ≤ 19) }
    ensures value { result ≡ answer (shown_at text.now v) (length out.old) }
    ensures out_after { out.new ≡ left (shown_at text.now v) out.old }
{
    fit_kind(
        out,
        v.kind,
        part(text, v.first),
        part(text, v.second),
        v.a,
        v.b,
    )
}

// Writes the rendering of what was read with the parts of the text that stand at its places, or its refusal.
pub fn write_shown(text: &[u8], reading: Reading, out: &mut [u8]) -> Written
    ensures value { result ≡ answer (shown_by text.now reading) (length out.old) }
    ensures out_after { out.new ≡ left (shown_by text.now reading) out.old }
{
    let Ok(read) = reading else {
        return Written {
            refusal: path::refusal_of(reading),
            length: 0,
        };
    };
    write_seen(text, path::view(read.path, read.exact), out)
}

// Writes the key of a text that was read: 1, 2, 3, then 4.
pub fn write_read(text: &[u8], read: Result<PathView, Refusal>, out: &mut [u8]) -> Written
    requires { read ≡ viewed_by (read_path text.now) }
    ensures value { result ≡ answer (key_of text.now) (length out.old) }
    ensures out_after { out.new ≡ left (key_of text.now) out.old }
{
    match read {
        Ok(v) => write_seen(text, v, out),
        Err(why) => {
            let fault = path::fault_of(why);
            Written {
                refusal: fault.refusal,
                length: 0,
            }
        }
    }
}

// Writes the key of a text: 1, 2, 3, then 4.
pub fn write_key(text: &[u8], out: &mut [u8]) -> Written
    ensures value { result ≡ answer (key_of text.now) (length out.old) }
    ensures out_after { out.new ≡ left (key_of text.now) out.old }
{
    write_read(text, walk::walk_view(text), out)
}
