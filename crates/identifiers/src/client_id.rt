// Client identifiers.
ghost use Rattle.std.specs.Prelude.{◌≡◌, length};
ghost use Rattle.text.specs.Put.{answer, left};
ghost use Rattle.identifiers.specs.Check.{client};
ghost use Rattle.identifiers.specs.Owned.{as_written, blank, trim_start, trim_end, trim, new_client, made_client};

use crate::validate::{validate_client_identifier, validate_client_type};
use text::Written;
use text::refusal::NOT_ASCII;

// An owned client identifier: its bytes, zero after the last, and their number.
#[derive(Drop)]
pub struct ClientId {
    pub bytes: [u8; 64],
    pub len: usize,
}

// Whether the byte is white: 9 to 13, and 32.
pub fn is_white(b: u8) -> bool
    ensures { result ≡ blank b }
{
    matches!(b, 9..=13 | 32)
}

// The text without the white bytes at its start, as a part of it.
fn trim_start(s: &[u8]) -> &[u8]
    ensures { result.now ≡ trim_start s.now }
{
    let start = s.iter().position(|b| !is_white(*b)).unwrap_or(s.len());
    &s[start..]
}

// The text without the white bytes at its end, as a part of it.
fn trim_end(s: &[u8]) -> &[u8]
    ensures { result.now ≡ trim_end s.now }
{
    let last = s.iter().rposition(|b| !is_white(*b));
    &s[..last.map_or(0, |i| i + 1)]
}

// Writes `{client_type}-{counter}`, the client type trimmed.
pub fn write_client_id(client_type: &[u8], counter: u64, out: &mut [u8]) -> Written
    ensures value { result ≡ answer (new_client client_type.now counter) (length out.old) }
    ensures out_after { out.new ≡ left (new_client client_type.now counter) out.old }
{
    if !text::part::all_ascii(client_type) {
        return Written {
            refusal: NOT_ASCII,
            length: 0,
        };
    }
    let name = trim_end(trim_start(client_type));
    let refusal = validate_client_type(name);
    if refusal != 0 {
        return Written { refusal, length: 0 };
    }
    crate::write_named(name, counter, out)
}

impl ClientId {
    // The client identifier that the text is, or a refusal number.
    pub fn from_str(s: &[u8]) -> Result<ClientId, u8>
        ensures { result ≡ made_client (as_written client s.now) }
    {
        let mut bytes = [0u8; 64];
        let made = crate::write_accepted(validate_client_identifier(s), s, &mut bytes);
        if made.refusal != 0 {
            return Err(made.refusal);
        }
        Ok(ClientId {
            bytes,
            len: made.length as usize,
        })
    }

    // The client identifier of that type and number, or a refusal number.
    pub fn new(client_type: &[u8], counter: u64) -> Result<ClientId, u8>
        ensures { result ≡ made_client (new_client client_type.now counter) }
    {
        let mut bytes = [0u8; 64];
        let made = write_client_id(client_type, counter, &mut bytes);
        if made.refusal != 0 {
            return Err(made.refusal);
        }
        Ok(ClientId {
            bytes,
            len: made.length as usize,
        })
    }
}
