// The fixed words of the paths, each compared eight bytes at a time: `eight` of a literal is a number when this is compiled.
#![tactic(auto)]

ghost use Rattle.std.specs.Prelude.{◌≡◌, ◌≤◌, length, drop};
ghost use Rattle.text.specs.Bytes.{bytes};
ghost use Rattle.text.specs.Part.{starts_with};

use text::part::eight;
use walk_scan::word::{word8, word16, word24};

// `ports/` as a number.
const PORTS: u64 = 0x2f7374726f70;

pub fn is_clients_open(s: &[u8], at: usize) -> bool
    requires { at ≤ length s.now }
    ensures { result ≡ starts_with (bytes "clients/") (drop at s.now) }
{
    word8(s, at, b"clients/")
}

pub fn is_client_state(s: &[u8], at: usize) -> bool
    requires { at ≤ length s.now }
    ensures { result ≡ starts_with (bytes "/clientState") (drop at s.now) }
{
    word16(s, at, 12, eight(b"/clientS", 0), eight(b"entState", 0))
}

pub fn is_client_connections(s: &[u8], at: usize) -> bool
    requires { at ≤ length s.now }
    ensures { result ≡ starts_with (bytes "/connections") (drop at s.now) }
{
    word16(s, at, 12, eight(b"/connect", 0), eight(b"nections", 0))
}

pub fn is_consensus_states(s: &[u8], at: usize) -> bool
    requires { at ≤ length s.now }
    ensures { result ≡ starts_with (bytes "/consensusStates/") (drop at s.now) }
{
    word24(
        s,
        at,
        17,
        eight(b"/consens", 0),
        eight(b"usStates", 0),
        eight(b"sStates/", 0),
    )
}

pub fn is_processed_time(s: &[u8], at: usize) -> bool
    requires { at ≤ length s.now }
    ensures { result ≡ starts_with (bytes "/processedTime") (drop at s.now) }
{
    word16(s, at, 14, eight(b"/process", 0), eight(b"ssedTime", 0))
}

pub fn is_processed_height(s: &[u8], at: usize) -> bool
    requires { at ≤ length s.now }
    ensures { result ≡ starts_with (bytes "/processedHeight") (drop at s.now) }
{
    word16(s, at, 16, eight(b"/process", 0), eight(b"edHeight", 0))
}

pub fn is_channels(s: &[u8], at: usize) -> bool
    requires { at ≤ length s.now }
    ensures { result ≡ starts_with (bytes "/channels/") (drop at s.now) }
{
    word16(s, at, 10, eight(b"/channel", 0), eight(b"hannels/", 0))
}

pub fn is_sequences(s: &[u8], at: usize) -> bool
    requires { at ≤ length s.now }
    ensures { result ≡ starts_with (bytes "/sequences/") (drop at s.now) }
{
    word16(s, at, 11, eight(b"/sequenc", 0), eight(b"quences/", 0))
}

pub fn is_upgraded_client(s: &[u8], at: usize) -> bool
    requires { at ≤ length s.now }
    ensures { result ≡ starts_with (bytes "/upgradedClient") (drop at s.now) }
{
    word16(s, at, 15, eight(b"/upgrade", 0), eight(b"edClient", 0))
}

pub fn is_upgraded_cons_state(s: &[u8], at: usize) -> bool
    requires { at ≤ length s.now }
    ensures { result ≡ starts_with (bytes "/upgradedConsState") (drop at s.now) }
{
    word24(
        s,
        at,
        18,
        eight(b"/upgrade", 0),
        eight(b"dConsSta", 0),
        eight(b"onsState", 0),
    )
}

pub fn is_channel_ends(s: &[u8], at: usize) -> bool
    requires { at ≤ length s.now }
    ensures { result ≡ starts_with (bytes "channelEnds/ports/") (drop at s.now) }
{
    word24(
        s,
        at,
        18,
        eight(b"channelE", 0),
        eight(b"nds/port", 0),
        eight(b"s/ports/", 0),
    )
}

pub fn is_commitments(s: &[u8], at: usize) -> bool
    requires { at ≤ length s.now }
    ensures { result ≡ starts_with (bytes "commitments/ports/") (drop at s.now) }
{
    word24(
        s,
        at,
        18,
        eight(b"commitme", 0),
        eight(b"nts/port", 0),
        eight(b"s/ports/", 0),
    )
}

pub fn is_acks(s: &[u8], at: usize) -> bool
    requires { at ≤ length s.now }
    ensures { result ≡ starts_with (bytes "acks/ports/") (drop at s.now) }
{
    word16(s, at, 11, eight(b"acks/por", 0), eight(b"s/ports/", 0))
}

pub fn is_receipts(s: &[u8], at: usize) -> bool
    requires { at ≤ length s.now }
    ensures { result ≡ starts_with (bytes "receipts/ports/") (drop at s.now) }
{
    word16(s, at, 15, eight(b"receipts", 0), eight(b"s/ports/", 0))
}

pub fn is_next_sequence_send(s: &[u8], at: usize) -> bool
    requires { at ≤ length s.now }
    ensures { result ≡ starts_with (bytes "nextSequenceSend/ports/") (drop at s.now) }
{
    word24(
        s,
        at,
        23,
        eight(b"nextSequ", 0),
        eight(b"enceSend", 0),
        eight(b"d/ports/", 0),
    )
}

pub fn is_next_sequence_recv(s: &[u8], at: usize) -> bool
    requires { at ≤ length s.now }
    ensures { result ≡ starts_with (bytes "nextSequenceRecv/ports/") (drop at s.now) }
{
    word24(
        s,
        at,
        23,
        eight(b"nextSequ", 0),
        eight(b"enceRecv", 0),
        eight(b"v/ports/", 0),
    )
}

pub fn is_next_sequence_ack(s: &[u8], at: usize) -> bool
    requires { at ≤ length s.now }
    ensures { result ≡ starts_with (bytes "nextSequenceAck/ports/") (drop at s.now) }
{
    word24(
        s,
        at,
        22,
        eight(b"nextSequ", 0),
        eight(b"enceAck/", 0),
        eight(b"k/ports/", 0),
    )
}

pub fn is_connections(s: &[u8], at: usize) -> bool
    requires { at ≤ length s.now }
    ensures { result ≡ starts_with (bytes "connections/") (drop at s.now) }
{
    word16(s, at, 12, eight(b"connecti", 0), eight(b"ections/", 0))
}

pub fn is_next_client_sequence(s: &[u8], at: usize) -> bool
    requires { at ≤ length s.now }
    ensures { result ≡ starts_with (bytes "nextClientSequence") (drop at s.now) }
{
    word24(
        s,
        at,
        18,
        eight(b"nextClie", 0),
        eight(b"ntSequen", 0),
        eight(b"Sequence", 0),
    )
}

pub fn is_next_connection_sequence(s: &[u8], at: usize) -> bool
    requires { at ≤ length s.now }
    ensures { result ≡ starts_with (bytes "nextConnectionSequence") (drop at s.now) }
{
    word24(
        s,
        at,
        22,
        eight(b"nextConn", 0),
        eight(b"ectionSe", 0),
        eight(b"Sequence", 0),
    )
}

pub fn is_next_channel_sequence(s: &[u8], at: usize) -> bool
    requires { at ≤ length s.now }
    ensures { result ≡ starts_with (bytes "nextChannelSequence") (drop at s.now) }
{
    word24(
        s,
        at,
        19,
        eight(b"nextChan", 0),
        eight(b"nelSeque", 0),
        eight(b"Sequence", 0),
    )
}

pub fn is_head_channel_ends(s: &[u8], at: usize) -> bool
    requires { at ≤ length s.now }
    ensures { result ≡ starts_with (bytes "channelE") (drop at s.now) }
{
    word8(s, at, b"channelE")
}

pub fn is_head_commitments(s: &[u8], at: usize) -> bool
    requires { at ≤ length s.now }
    ensures { result ≡ starts_with (bytes "commitme") (drop at s.now) }
{
    word8(s, at, b"commitme")
}

pub fn is_head_acks(s: &[u8], at: usize) -> bool
    requires { at ≤ length s.now }
    ensures { result ≡ starts_with (bytes "acks/por") (drop at s.now) }
{
    word8(s, at, b"acks/por")
}

pub fn is_head_receipts(s: &[u8], at: usize) -> bool
    requires { at ≤ length s.now }
    ensures { result ≡ starts_with (bytes "receipts") (drop at s.now) }
{
    word8(s, at, b"receipts")
}

pub fn is_head_next_sequence(s: &[u8], at: usize) -> bool
    requires { at ≤ length s.now }
    ensures { result ≡ starts_with (bytes "nextSequ") (drop at s.now) }
{
    word8(s, at, b"nextSequ")
}

pub fn is_head_connections(s: &[u8], at: usize) -> bool
    requires { at ≤ length s.now }
    ensures { result ≡ starts_with (bytes "connecti") (drop at s.now) }
{
    word8(s, at, b"connecti")
}

// `ports/` has six bytes: those of the eight that are there, or one by one where there are fewer.
pub fn is_ports(s: &[u8], at: usize) -> bool
    requires { at ≤ length s.now }
    ensures { result ≡ starts_with (bytes "ports/") (drop at s.now) }
{
    if s.len() - at < 8 {
        return text::part::same_at(s, at, b"ports/");
    }
    eight(s, at) % 0x1000000000000 == PORTS
}
