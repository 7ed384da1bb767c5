// The writers of the nineteen kinds.
ghost use Rattle.std.specs.Prelude.{[], ◌+◌, ◌-◌, ◌≤◌, length, get_or};
ghost use Rattle.text.specs.Put.{Wrote};
ghost use Rattle.path.specs.Kinds.{carried};
ghost use Rattle.path.specs.Read.{render, parts_of};
ghost use Rattle.writers.specs.Texts.{sequence_texts, client_texts, channel_texts, packet_texts, upgrade_texts};

use crate::pieces::{
    put_text, write_client, write_consensus, write_ends, write_packet, write_two, write_upgrade,
};

// Kinds 1 to 3.
pub fn write_next_sequence(out: &mut [u8], at: usize, kind: u8) -> usize
    requires { (1 ≤ kind) × (kind ≤ 3) × (at + length (get_or sequence_texts (kind - 1) []) ≤ length out.old) }
    ensures { Wrote out.old at (get_or sequence_texts (kind - 1) []) result out.new }
{
    match kind {
        1 => put_text(out, at, b"nextClientSequence"),
        2 => put_text(out, at, b"nextConnectionSequence"),
        _ => put_text(out, at, b"nextChannelSequence"),
    }
}

// Kinds 4 to 8.
fn write_clients(
    out: &mut [u8],
    at: usize,
    kind: u8,
    client: &[u8],
    number: u64,
    height: u64,
) -> usize
    requires { (4 ≤ kind) × (kind ≤ 8) × (at + length (get_or (client_texts client.now number height) (kind - 4) []) ≤ length out.old) }
    ensures { Wrote out.old at (get_or (client_texts client.now number height) (kind - 4) []) result out.new }
{
    match kind {
        4 => write_client(out, at, client, b"/clientState"),
        5 => write_consensus(out, at, client, number, height, b""),
        6 => write_consensus(out, at, client, number, height, b"/processedTime"),
        7 => write_consensus(out, at, client, number, height, b"/processedHeight"),
        _ => write_client(out, at, client, b"/connections"),
    }
}

// Kinds 9 to 14. A connection has no channel, and a port alone has none.
fn write_channels(out: &mut [u8], at: usize, kind: u8, first: &[u8], channel: &[u8]) -> usize
    requires { (9 ≤ kind) × (kind ≤ 14) × (at + length (get_or (channel_texts first.now channel.now) (kind - 9) []) ≤ length out.old) }
    ensures { Wrote out.old at (get_or (channel_texts first.now channel.now) (kind - 9) []) result out.new }
{
    match kind {
        9 => write_two(out, at, b"connections/", first),
        10 => write_two(out, at, b"ports/", first),
        11 => write_ends(out, at, b"channelEnds/ports/", first, channel),
        12 => write_ends(out, at, b"nextSequenceSend/ports/", first, channel),
        13 => write_ends(out, at, b"nextSequenceRecv/ports/", first, channel),
        _ => write_ends(out, at, b"nextSequenceAck/ports/", first, channel),
    }
}

// Kinds 15 to 17.
fn write_packets(
    out: &mut [u8],
    at: usize,
    kind: u8,
    port: &[u8],
    channel: &[u8],
    sequence: u64,
) -> usize
    requires { (15 ≤ kind) × (kind ≤ 17) × (at + length (get_or (packet_texts port.now channel.now sequence) (kind - 15) []) ≤ length out.old) }
    ensures { Wrote out.old at (get_or (packet_texts port.now channel.now sequence) (kind - 15) []) result out.new }
{
    match kind {
        15 => write_packet(out, at, b"commitments/ports/", port, channel, sequence),
        16 => write_packet(out, at, b"acks/ports/", port, channel, sequence),
        _ => write_packet(out, at, b"receipts/ports/", port, channel, sequence),
    }
}

// Kinds 18 and 19.
fn write_upgrades(out: &mut [u8], at: usize, kind: u8, upgrade: &[u8], height: u64) -> usize
    requires { (18 ≤ kind) × (kind ≤ 19) × (at + length (get_or (upgrade_texts upgrade.now height) (kind - 18) []) ≤ length out.old) }
    ensures { Wrote out.old at (get_or (upgrade_texts upgrade.now height) (kind - 18) []) result out.new }
{
    match kind {
        18 => write_upgrade(out, at, upgrade, height, b"/upgradedClient"),
        _ => write_upgrade(out, at, upgrade, height, b"/upgradedConsState"),
    }
}

// Writes the text of a kind. What the kind lacks has no influence.
pub fn write_kind(
    out: &mut [u8],
    at: usize,
    kind: u8,
    first: &[u8],
    second: &[u8],
    a: u64,
    b: u64,
) -> usize
    requires { (1 ≤ kind) × (kind ≤ 19) × (at + length (render (parts_of kind) (carried first.now second.now a b)) ≤ length out.old) }
    ensures { Wrote out.old at (render (parts_of kind) (carried first.now second.now a b)) result out.new }
{
    if kind < 4 {
        return write_next_sequence(out, at, kind);
    }
    if kind < 9 {
        return write_clients(out, at, kind, first, a, b);
    }
    if kind < 15 {
        return write_channels(out, at, kind, first, second);
    }
    if kind < 18 {
        return write_packets(out, at, kind, first, second, a);
    }
    write_upgrades(out, at, kind, first, a)
}
