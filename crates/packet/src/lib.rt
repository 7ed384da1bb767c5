// Packet keys of IBC version 2: a client identifier, a marker byte, and a sequence in 8 bytes, high byte first.
#![tactic(auto)]

ghost use Rattle.std.specs.Prelude.{◌≡◌, ◌∷◌, ◌+◌, ◌≤◌, length, Some};
ghost use Rattle.text.specs.Number.{big_endian};
ghost use Rattle.text.specs.Put.{answer, left, Wrote};
ghost use Rattle.path.specs.View.{Shows};
ghost use Rattle.packet.specs.Key.{marker_of, kind_marked, packet_key, packet_in, write_as, packet_wanted, client_place, packet_of};

use identifiers::validate::validate_client_identifier;
use path::{Place, Sequence};
use text::refusal::{BAD_V2_KEY, NO_ROOM};
use text::{Written, read_big_endian};

// The marker bytes of the three kinds.
const COMMITMENT: u8 = 1;

const RECEIPT: u8 = 2;

const ACKNOWLEDGEMENT: u8 = 3;

// What a packet key is of.
#[derive(Clone, Copy)]
pub enum PacketKind {
    Commitment,
    Receipt,
    Acknowledgement,
}

// What a packet key says. Its client is the first `length` bytes of the key.
#[derive(Clone, Copy)]
pub struct PacketKey {
    pub kind: PacketKind,
    pub length: usize,
    pub sequence: Sequence,
}

// What the reader answers, as it crosses to C: 0 and what the key says, the kind by its marker, or a refusal and zeros.
#[repr(C)]
#[derive(Clone, Copy)]
pub struct Packet {
    pub refusal: u8,
    pub kind: u8,
    pub length: u64,
    pub sequence: u64,
}

// The marker byte of a kind.
pub fn marker_of(kind: PacketKind) -> u8
    ensures { result ≡ marker_of kind }
{
    match kind {
        PacketKind::Commitment => COMMITMENT,
        PacketKind::Receipt => RECEIPT,
        PacketKind::Acknowledgement => ACKNOWLEDGEMENT,
    }
}

// The kind of a marker byte, where there is one.
pub fn kind_marked(marker: u8) -> Option<PacketKind>
    ensures { result ≡ kind_marked marker }
{
    match marker {
        COMMITMENT => Some(PacketKind::Commitment),
        RECEIPT => Some(PacketKind::Receipt),
        ACKNOWLEDGEMENT => Some(PacketKind::Acknowledgement),
        _ => None,
    }
}

// Reads a packet key. The last nine bytes are cut off first, and the client is what stands before them: 24, the client's 2, 5, 6.
pub fn read_packet_key(key: &[u8]) -> Result<PacketKey, u8>
    ensures { result ≡ packet_in key.now }
{
    if key.len() < 9 {
        return Err(BAD_V2_KEY);
    }
    let length = key.len() - 9;
    let Some(kind) = kind_marked(key[length]) else {
        return Err(BAD_V2_KEY);
    };
    let refusal = validate_client_identifier(&key[0..length]);
    if refusal != 0 {
        return Err(refusal);
    }
    Ok(PacketKey {
        kind,
        length,
        sequence: Sequence(read_big_endian(key, length + 1, 8)),
    })
}

// The client of a key that was read, as a part of the key, no copy: the empty part at its start on a refusal.
pub fn client_identifier(key: &[u8], answer: Result<PacketKey, u8>) -> &[u8]
    ensures { Shows result key.entry (client_place answer) }
{
    let Ok(packet) = answer else {
        return reading::part(key, Place { start: 0, len: 0 });
    };
    let len = packet.length;
    reading::part(key, Place { start: 0, len })
}

// An answer as it crosses to C.
pub fn packet_of(answer: Result<PacketKey, u8>) -> Packet
    ensures { result ≡ packet_of answer }
{
    match answer {
        Ok(p) => {
            let kind = p.kind;
            Packet {
                refusal: 0,
                kind: marker_of(kind),
                length: p.length as u64,
                sequence: p.sequence.0,
            }
        }
        Err(refusal) => Packet {
            refusal,
            kind: 0,
            length: 0,
            sequence: 0,
        },
    }
}

// Writes the nine bytes behind the client, the marker and the sequence, and returns the place after them.
fn put_nine(out: &mut [u8], at: usize, kind: PacketKind, sequence: Sequence) -> usize
    requires { at + 9 ≤ length out.old }
    ensures { Wrote out.old at (marker_of kind ∷ big_endian 8 sequence.0) result out.new }
{
    let next = text::put::write_byte(out, at, marker_of(kind));
    text::write_big_endian(out, next, sequence.0, 8)
}

// Writes the client and the nine bytes from byte 0 on, and returns the place after them.
fn put_key(out: &mut [u8], kind: PacketKind, client: &[u8], sequence: Sequence) -> usize
    requires { length client.now + 9 ≤ length out.old }
    ensures { Wrote out.old 0 (packet_key kind client.now sequence.0) result out.new }
{
    let at = text::put::write_text(out, 0, client);
    put_nine(out, at, kind, sequence)
}

// Writes the packet key of a kind: the client's 2, 5, 6, then 4.
fn write_kind(kind: PacketKind, client: &[u8], sequence: Sequence, out: &mut [u8]) -> Written
    ensures value { result ≡ answer (write_as (Some kind) client.now sequence.0) (length out.old) }
    ensures out_after { out.new ≡ left (write_as (Some kind) client.now sequence.0) out.old }
{
    let refusal = validate_client_identifier(client);
    if refusal != 0 {
        return Written { refusal, length: 0 };
    }
    if out.len() < client.len() + 9 {
        return Written {
            refusal: NO_ROOM,
            length: 0,
        };
    }
    let end = put_key(out, kind, client, sequence);
    Written {
        refusal: 0,
        length: end as u64,
    }
}

// Writes a packet key, the kind by its marker: 24, the client's 2, 5, 6, then 4.
pub fn write_packet_key(kind: u8, client: &[u8], sequence: Sequence, out: &mut [u8]) -> Written
    ensures value { result ≡ answer (packet_wanted kind client.now sequence.0) (length out.old) }
    ensures out_after { out.new ≡ left (packet_wanted kind client.now sequence.0) out.old }
{
    let Some(k) = kind_marked(kind) else {
        return Written {
            refusal: BAD_V2_KEY,
            length: 0,
        };
    };
    write_kind(k, client, sequence, out)
}
