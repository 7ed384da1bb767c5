// Channel identifiers.
ghost use Rattle.std.specs.Prelude.{◌≡◌, length};
ghost use Rattle.text.specs.Put.{answer, left};
ghost use Rattle.identifiers.specs.Check.{channel, fault_of};
ghost use Rattle.identifiers.specs.Owned.{as_written, new_channel, owned_channel, made_channel};

use crate::validate::validate_channel_identifier;
use text::{Fault, Written};

// An owned channel identifier: its bytes, zero after the last, and their number.
#[derive(Drop)]
pub struct ChannelId {
    pub bytes: [u8; 64],
    pub len: usize,
}

// Writes `channel-{counter}`.
pub fn write_channel_id(counter: u64, out: &mut [u8]) -> Written
    ensures value { result ≡ answer (new_channel counter) (length out.old) }
    ensures out_after { out.new ≡ left (new_channel counter) out.old }
{
    crate::write_named(b"channel", counter, out)
}

impl ChannelId {
    // The channel identifier that the text is, or a refusal with the place of its fault.
    pub fn from_str(s: &[u8]) -> Result<ChannelId, Fault>
        ensures { result ≡ made_channel (as_written channel s.now) (fault_of channel s.now).place }
    {
        let mut bytes = [0u8; 64];
        let fault = validate_channel_identifier(s);
        let made = crate::write_accepted(fault.refusal, s, &mut bytes);
        if made.refusal != 0 {
            return Err(Fault {
                refusal: made.refusal,
                place: fault.place,
            });
        }
        Ok(ChannelId {
            bytes,
            len: made.length as usize,
        })
    }

    // The channel identifier of that number.
    pub fn new(counter: u64) -> ChannelId
        ensures { result ≡ owned_channel (new_channel counter) }
    {
        let mut bytes = [0u8; 64];
        let made = write_channel_id(counter, &mut bytes);
        ChannelId {
            bytes,
            len: made.length as usize,
        }
    }
}
