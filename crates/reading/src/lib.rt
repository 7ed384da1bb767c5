// What both readers need: the parts of a text that was read, the reason of a refusal, and the 26 bytes.
#![tactic(auto)]

pub mod encode;

ghost use Rattle.std.specs.Prelude.{◌≡◌, cond, length};
ghost use Rattle.text.specs.Part.{ascii};
ghost use Rattle.text.specs.Put.{left};
ghost use Rattle.path.specs.declared.Refusal.TheVariants.{NotAscii};
ghost use Rattle.path.specs.Read.{why_not, bytes_by};
ghost use Rattle.path.specs.View.{Shows, first_place, second_place};
ghost use Rattle.reading.specs.Encode.{answer_by};

use path::{Place, Reading, Refusal};
use text::Fault;

// What stands at a place, as a part of the text: the empty part at the start where the place does not lie in the text.
pub fn part(text: &[u8], p: Place) -> &[u8]
    ensures { Shows result text.entry p }
{
    let start = p.start;
    let len = p.len;
    if text.len() < start {
        return &text[0..0];
    }
    if text.len() - start < len {
        return &text[0..0];
    }
    &text[start..start + len]
}

// The first identifier of a reading, or U, as a part of the text that was read, no copy: the empty part at its start on
// a refusal, or where the kind has none.
pub fn first_identifier(text: &[u8], reading: Reading) -> &[u8]
    ensures { Shows result text.entry (first_place reading) }
{
    let Ok(read) = reading else {
        return part(text, Place { start: 0, len: 0 });
    };
    let v = path::view(read.path, read.exact);
    let first = v.first;
    part(text, first)
}

// The second identifier, likewise.
pub fn second_identifier(text: &[u8], reading: Reading) -> &[u8]
    ensures { Shows result text.entry (second_place reading) }
{
    let Ok(read) = reading else {
        return part(text, Place { start: 0, len: 0 });
    };
    let v = path::view(read.path, read.exact);
    let second = v.second;
    part(text, second)
}

// Why a text of at most 4,096 bytes is no path.
pub fn fault(text: &[u8]) -> Refusal
    ensures { result ≡ cond (ascii text.now) (why_not text.now) NotAscii }
{
    if text::part::all_ascii(text) {
        read_faults::number_fault(text)
    } else {
        Refusal::NotAscii
    }
}

// A reading as 26 bytes.
pub fn write_answer(reading: Reading, out: &mut [u8]) -> Fault
    ensures value { result ≡ answer_by reading (length out.old) }
    ensures out_after { out.new ≡ left (bytes_by reading) out.old }
{
    match reading {
        Ok(read) => {
            let written = encode::write_view(path::view(read.path, read.exact), out);
            Fault {
                refusal: written.refusal,
                place: 0,
            }
        }
        Err(why) => path::fault_of(why),
    }
}
