// Connection identifiers.
ghost use Rattle.std.specs.Prelude.{◌≡◌};
ghost use Rattle.identifiers.specs.Check.{connection, fault_of};
ghost use Rattle.identifiers.specs.Owned.{as_written, made_connection};

use crate::validate::validate_connection_identifier;
use text::Fault;

// An owned connection identifier: its bytes, zero after the last, and their number.
#[derive(Drop)]
pub struct ConnectionId {
    pub bytes: [u8; 64],
    pub len: usize,
}

impl ConnectionId {
    // The connection identifier that the text is, or a refusal with the place of its fault.
    pub fn from_str(s: &[u8]) -> Result<ConnectionId, Fault>
        ensures { result ≡ made_connection (as_written connection s.now) (fault_of connection s.now).place }
    {
        let mut bytes = [0u8; 64];
        let fault = validate_connection_identifier(s);
        let made = crate::write_accepted(fault.refusal, s, &mut bytes);
        if made.refusal != 0 {
            return Err(Fault {
                refusal: made.refusal,
                place: fault.place,
            });
        }
        Ok(ConnectionId {
            bytes,
            len: made.length as usize,
        })
    }
}
