// Port identifiers.
ghost use Rattle.std.specs.Prelude.{◌≡◌};
ghost use Rattle.identifiers.specs.Check.{port};
ghost use Rattle.identifiers.specs.Owned.{as_written, made_port};

use crate::validate::validate_port_identifier;

// An owned port: its bytes, zero after the last, and their number.
#[derive(Drop)]
pub struct PortId {
    pub bytes: [u8; 128],
    pub len: usize,
}

impl PortId {
    // The port that the text is, or a refusal number.
    pub fn from_str(s: &[u8]) -> Result<PortId, u8>
        ensures { result ≡ made_port (as_written port s.now) }
    {
        let mut bytes = [0u8; 128];
        let made = crate::write_accepted(validate_port_identifier(s), s, &mut bytes);
        if made.refusal != 0 {
            return Err(made.refusal);
        }
        Ok(PortId {
            bytes,
            len: made.length as usize,
        })
    }
}
