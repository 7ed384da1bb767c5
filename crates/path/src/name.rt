// What an identifier of a path is checked as, and its refusal.
ghost use Rattle.std.specs.Prelude.{◌≡◌, not, eqb};
ghost use Rattle.text.specs.Part.{every};
ghost use Rattle.path.specs.declared.name.Name.TheVariants.{Upgrade};
ghost use Rattle.path.specs.Read.{name_fault};

use identifiers::validate;
use text::refusal::{BAD_SEGMENT, NOT_ASCII};

#[derive(Clone, Copy)]
pub enum Name {
    Client,
    Connection,
    Port,
    Channel,
    Upgrade,
}

// Whether the text has no `/`.
pub fn no_slash(s: &[u8]) -> bool
    ensures { result ≡ every (λ b. not (eqb b 47)) s.now }
{
    !s.contains(&b'/')
}

// The refusal of an upgrade path.
fn upgrade_fault(s: &[u8]) -> u8
    ensures { result ≡ name_fault Upgrade s.now }
{
    if !text::part::all_ascii(s) {
        return NOT_ASCII;
    }
    if !no_slash(s) {
        return BAD_SEGMENT;
    }
    0
}

// The refusal of an identifier of a path, 0 where it is accepted.
pub fn name_fault(name: Name, id: &[u8]) -> u8
    ensures { result ≡ name_fault name id.now }
{
    match name {
        Name::Client => validate::validate_client_identifier(id),
        Name::Connection => {
            let fault = validate::validate_connection_identifier(id);
            fault.refusal
        }
        Name::Port => validate::validate_port_identifier(id),
        Name::Channel => {
            let fault = validate::validate_channel_identifier(id);
            fault.refusal
        }
        Name::Upgrade => upgrade_fault(id),
    }
}
