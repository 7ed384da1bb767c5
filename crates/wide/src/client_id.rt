// New client identifiers.
ghost use Rattle.std.specs.Prelude.{◌≡◌, length};
ghost use Rattle.text.specs.Put.{answer, left};
ghost use Rattle.wide.specs.Mode.{wide};
ghost use Rattle.wide.specs.Check.{new_client_in};

use crate::validate::validate_client_type;
use text::Written;
use text::refusal::BAD_UTF8;

// Writes `{client_type}-{counter}`, the client type trimmed of white space.
pub fn write_client_id(client_type: &[u8], counter: u64, out: &mut [u8]) -> Written
    ensures value { result ≡ answer (new_client_in wide client_type.now counter) (length out.old) }
    ensures out_after { out.new ≡ left (new_client_in wide client_type.now counter) out.old }
{
    if !letters::is_utf8(client_type) {
        return Written {
            refusal: BAD_UTF8,
            length: 0,
        };
    }
    let name = letters::trim::wide_trim(client_type);
    let refusal = validate_client_type(name);
    if refusal != 0 {
        return Written { refusal, length: 0 };
    }
    identifiers::write_named(name, counter, out)
}
