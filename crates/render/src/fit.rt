// The text of a kind where it is short enough and there is room. The length that is needed is told before a byte is written.
ghost use Rattle.std.specs.Prelude.{◌≡◌, [], min, ◌-◌, ◌≤◌, length, get_or};
ghost use Rattle.text.specs.Put.{text, answer, left};
ghost use Rattle.path.specs.Kinds.{carried};
ghost use Rattle.path.specs.Read.{render, parts_of};
ghost use Rattle.writers.specs.Texts.{sequence_texts};
ghost use Rattle.render.specs.Render.{short};

use text::Written;
use text::refusal::{NO_ROOM, TOO_LONG};
use writers::kinds::{write_kind, write_next_sequence};

// How many bytes the text of a kind has; of what is longer than 4,096, which is never written, only that it is.
fn length_of(kind: u8, first: &[u8], second: &[u8], a: u64, b: u64) -> usize
    requires { (1 ≤ kind) × (kind ≤ 19) }
    ensures { min 4097 result ≡ min 4097 (length (render (parts_of kind) (carried first.now second.now a b))) }
{
    path::measure::render_length(kind, first.len().min(4097), second.len().min(4097), a, b)
}

// Kinds 1 to 3: a word each.
pub(crate) fn fit_word(out: &mut [u8], kind: u8) -> Written
    requires { (1 ≤ kind) × (kind ≤ 3) }
    ensures value { result ≡ answer (text (get_or sequence_texts (kind - 1) [])) (length out.old) }
    ensures out_after { out.new ≡ left (text (get_or sequence_texts (kind - 1) [])) out.old }
{
    if out.len() < path::measure::render_length(kind, 0, 0, 0, 0) {
        return Written {
            refusal: NO_ROOM,
            length: 0,
        };
    }
    let length = write_next_sequence(out, 0, kind);
    Written {
        refusal: 0,
        length: length as u64,
    }
}

// Writes the text of a kind, or refuses where it is too long or `out` too short.
pub fn fit_kind(out: &mut [u8], kind: u8, first: &[u8], second: &[u8], a: u64, b: u64) -> Written
    requires { (1 ≤ kind) × (kind ≤ 19) }
    ensures value { result ≡ answer (short (render (parts_of kind) (carried first.now second.now a b))) (length out.old) }
    ensures out_after { out.new ≡ left (short (render (parts_of kind) (carried first.now second.now a b))) out.old }
{
    let need = length_of(kind, first, second, a, b);
    if 4096 < need {
        return Written {
            refusal: TOO_LONG,
            length: 0,
        };
    }
    if out.len() < need {
        return Written {
            refusal: NO_ROOM,
            length: 0,
        };
    }
    let length = write_kind(out, 0, kind, first, second, a, b);
    Written {
        refusal: 0,
        length: length as u64,
    }
}
