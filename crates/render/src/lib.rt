// Rendering: checks of the identifiers, the room, then the writers.
#![tactic(auto)]

pub mod checks;
pub mod fit;
pub mod texts;

ghost use Rattle.std.specs.Prelude.{◌≡◌, ◌≤◌, length};
ghost use Rattle.text.specs.Put.{answer, left};
ghost use Rattle.path.specs.Kinds.{carried};
ghost use Rattle.path.specs.Read.{render_of};
ghost use Rattle.render.specs.Render.{names_of};

use checks::checked_kind;
use identifiers::alphabet::Ascii;
use path::name::Name;
use text::Written;
use text::refusal::BAD_KIND;

// The identifiers of a kind from 4 on: one, or a port and a channel.
#[derive(Clone, Copy)]
pub enum Names {
    One(Name),
    PortAndChannel,
}

// Which identifiers a kind from 4 on has.
pub fn names_of(kind: u8) -> Names
    ensures { result ≡ names_of kind }
{
    match kind {
        0..=8 => Names::One(Name::Client),
        9 => Names::One(Name::Connection),
        10 => Names::One(Name::Port),
        11..=17 => Names::PortAndChannel,
        _ => Names::One(Name::Upgrade),
    }
}

// Renders by kind and parts. Arguments that the kind lacks have no influence. Kinds 1 to 3, a word each, are told apart first.
pub fn render(kind: u8, first: &[u8], second: &[u8], a: u64, b: u64, out: &mut [u8]) -> Written
    ensures value { result ≡ answer (render_of kind (carried first.now second.now a b)) (length out.old) }
    ensures out_after { out.new ≡ left (render_of kind (carried first.now second.now a b)) out.old }
{
    if kind < 1 || 19 < kind {
        return Written {
            refusal: BAD_KIND,
            length: 0,
        };
    }
    if kind < 4 {
        return fit::fit_word(out, kind);
    }
    checked_kind::<Ascii>(out, kind, first, second, a, b)
}
