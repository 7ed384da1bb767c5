// What a component of a kind asks for.
ghost use Rattle.std.specs.Prelude.{◌≡◌, ◌≤◌, length};
ghost use Rattle.path.specs.Kinds.{count, pair};
ghost use Rattle.path.specs.Read.{fits};
ghost use Rattle.diagnose.specs.Diagnosis.{alike, stands};
ghost use Rattle.diagnose.specs.Table.{letter_shape, shape_of, part_in};

use crate::alike::{agree_back, agree_front, alike_but};
use path::name::{Name, name_fault};
use read_pieces::first_dash;
use text::part::equal;

#[derive(Clone, Copy)]
pub enum Shape {
    Word,
    Named(Name),
    Count,
    Pair,
}

// What a letter stands for.
fn letter_shape(b: u8) -> Shape
    ensures { result ≡ letter_shape b }
{
    match b {
        b'C' => Shape::Named(Name::Client),
        b'K' => Shape::Named(Name::Connection),
        b'P' => Shape::Named(Name::Port),
        b'H' => Shape::Named(Name::Channel),
        b'U' => Shape::Named(Name::Upgrade),
        b'R' => Shape::Pair,
        _ => Shape::Count,
    }
}

// What a component of a kind is, as kinds are written.
pub(crate) fn shape_of(w: &[u8]) -> Shape
    ensures { result ≡ shape_of w.now }
{
    if 3 < w.len() {
        return Shape::Word;
    }
    if w.len() == 0 {
        return letter_shape(0);
    }
    letter_shape(w[0])
}

// Whether the text is a number text.
fn is_number(c: &[u8]) -> bool
    ensures { result ≡ fits count c.now }
{
    text::read_number(c).is_ok()
}

// Whether the text is R-h: a second dash is no digit, so the second number fails at it.
fn is_pair(c: &[u8]) -> bool
    ensures { result ≡ fits pair c.now }
{
    let dash = first_dash(c);
    if dash == c.len() {
        return false;
    }
    if !is_number(&c[0..dash]) {
        return false;
    }
    let after = dash + 1;
    is_number(&c[after..])
}

// Whether a component is what the part w asks for.
pub(crate) fn fits_part(w: &[u8], c: &[u8]) -> bool
    ensures { result ≡ fits (part_in w.now) c.now }
{
    match shape_of(w) {
        Shape::Word => equal(c, w),
        Shape::Named(name) => name_fault(name, c) == 0,
        Shape::Count => is_number(c),
        Shape::Pair => is_pair(c),
    }
}

// The letters of a part and a component.
pub(crate) fn letters_of(w: &[u8], c: &[u8]) -> usize
    requires { length w.now ≤ 64 }
    ensures { result ≡ alike (part_in w.now) c.now }
{
    match shape_of(w) {
        Shape::Word => agree_front(false, w, c) + agree_back(w, c),
        _ => 0,
    }
}

// Whether the part w is no word, or stands there but for letter case.
pub(crate) fn word_stands(w: &[u8], c: &[u8]) -> bool
    ensures { result ≡ stands (part_in w.now) c.now }
{
    match shape_of(w) {
        Shape::Word => alike_but(w, c),
        _ => true,
    }
}
