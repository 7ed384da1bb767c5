// What the program askpath prints of one line, and of what one read brings.
#![tactic(auto)]

pub mod input;

ghost use Rattle.std.specs.Prelude.{◌≡◌, ◌+◌, ◌≤◌, length};
ghost use Rattle.text.specs.Put.{put};
ghost use Rattle.ask.specs.Answer.{mark, head, view_answer, spoken, placed, reason, saying, refusal_answer, line_answer};

use path::{PathView, Refusal};
use sentences::write_sentence;
use text::refusal::{NO_DIGITS, NOT_A_DIGIT, NOT_A_PATH, NOT_ASCII, TOO_LARGE, TOO_LONG};

// Writes ` E ` or ` L `, and returns the place after it.
fn write_mark(out: &mut [u8], at: usize, exact: bool) -> usize
    requires { at + 3 ≤ length out.old }
    ensures value { result ≡ at + 3 }
    ensures out_after { out.new ≡ put out.old at (mark exact) }
{
    if exact {
        return text::put::write_text(out, at, b" E ");
    }
    text::put::write_text(out, at, b" L ")
}

// Writes `0`, the kind and the mark, and returns the place after them.
fn write_head(out: &mut [u8], at: usize, kind: u8, exact: bool) -> usize
    requires { at + length (head kind exact) ≤ length out.old }
    ensures value { result ≡ at + length (head kind exact) }
    ensures out_after { out.new ≡ put out.old at (head kind exact) }
{
    let number = text::put::write_text(out, at, b"0 ");
    let mark = text::write_number(out, number, kind as u64);
    write_mark(out, mark, exact)
}

// Writes a space and the sentence of a refusal, and returns the place after them.
fn write_spoken(out: &mut [u8], at: usize, number: u8) -> usize
    requires { at + length (spoken number) ≤ length out.old }
    ensures value { result ≡ at + length (spoken number) }
    ensures out_after { out.new ≡ put out.old at (spoken number) }
{
    let sentence = text::put::write_text(out, at, b" ");
    write_sentence(out, sentence, number)
}

// Writes a place and the sentence of a refusal after it, and returns the place after them.
fn write_placed(out: &mut [u8], at: usize, place: usize, number: u8) -> usize
    requires { at + length (placed place number) ≤ length out.old }
    ensures value { result ≡ at + length (placed place number) }
    ensures out_after { out.new ≡ put out.old at (placed place number) }
{
    let digits = text::put::write_text(out, at, b" ");
    let end = text::write_number(out, digits, place as u64);
    write_spoken(out, end, number)
}

// Writes the place, where there is one, and the sentence for a customer, and returns the place after them.
fn write_reason(out: &mut [u8], at: usize, w: Refusal) -> usize
    requires { at + length (reason w) ≤ length out.old }
    ensures value { result ≡ at + length (reason w) }
    ensures out_after { out.new ≡ put out.old at (reason w) }
{
    match w {
        Refusal::TooLong => write_spoken(out, at, TOO_LONG),
        Refusal::NotAscii => write_spoken(out, at, NOT_ASCII),
        Refusal::NotAPath => write_spoken(out, at, NOT_A_PATH),
        Refusal::NoDigits(i) => write_placed(out, at, i, NO_DIGITS),
        Refusal::NotADigit(i) => write_placed(out, at, i, NOT_A_DIGIT),
        Refusal::TooLarge(i) => write_placed(out, at, i, TOO_LARGE),
    }
}

// Writes the reason, where it is asked for, and returns the place after it.
fn write_saying(out: &mut [u8], at: usize, w: Refusal, why: bool) -> usize
    requires { at + length (saying why w) ≤ length out.old }
    ensures value { result ≡ at + length (saying why w) }
    ensures out_after { out.new ≡ put out.old at (saying why w) }
{
    if why {
        return write_reason(out, at, w);
    }
    at
}

// Writes the answer to a line that was refused, and returns the place after it.
fn write_refusal(out: &mut [u8], at: usize, w: Refusal, why: bool) -> usize
    requires { at + length (refusal_answer why w) ≤ length out.old }
    ensures value { result ≡ at + length (refusal_answer why w) }
    ensures out_after { out.new ≡ put out.old at (refusal_answer why w) }
{
    let fault = path::fault_of(w);
    let number = text::write_number(out, at, fault.refusal as u64);
    let end = write_saying(out, number, w, why);
    text::put::write_byte(out, end, 10)
}

// Writes the answer to a line that was read, and returns the place after it.
fn write_view(out: &mut [u8], at: usize, line: &[u8], v: PathView) -> usize
    requires le_kind { (1 ≤ v.kind) × (v.kind ≤ 19) }
    requires v_in_bounds { at + length (view_answer line.now v) ≤ length out.old }
    ensures value { result ≡ at + length (view_answer line.now v) }
    ensures out_after { out.new ≡ put out.old at (view_answer line.now v) }
{
    let rendering = write_head(out, at, v.kind, v.exact);
    let end = key::write_rendering(out, rendering, line, v);
    text::put::write_byte(out, end, 10)
}

// Writes the answer to a line, and returns the place after it. Where it is asked why, a refusal is followed by its reason.
pub fn answer_line(out: &mut [u8], at: usize, line: &[u8], why: bool) -> usize
    requires { at + length (line_answer why line.now) ≤ length out.old }
    ensures value { result ≡ at + length (line_answer why line.now) }
    ensures out_after { out.new ≡ put out.old at (line_answer why line.now) }
{
    match walk::walk_view(line) {
        Ok(v) => write_view(out, at, line, v),
        Err(w) => write_refusal(out, at, w, why),
    }
}
