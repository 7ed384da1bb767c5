// The texts that are no whole path: prefixes, parents, leaves and the paths of packets.
ghost use Rattle.std.specs.Prelude.{◌≡◌, true, false, ◌∷◌, [], ◌+◌, ◌≤◌, ◌<◌, length};
ghost use Rattle.text.specs.Bytes.{bytes};
ghost use Rattle.text.specs.Put.{text, answer, left};
ghost use Rattle.path.specs.Kinds.{word, carried};
ghost use Rattle.path.specs.Parents.{text_of, consensus_parent, consensus_leaf, packets_path};
ghost use Rattle.writers.specs.Texts.{parent_text, leaf_text, packets_text};

use crate::checks::{checked_packets, checked_parent};
use identifiers::alphabet::Ascii;
use path::{RevisionHeight, RevisionNumber};
use text::Written;
use text::refusal::NO_ROOM;
use writers::parents::{write_consensus_leaf, write_consensus_parent, write_packets_path};

// `consensusStates/R-h`, and what stands after it.
fn fit_leaf(number: u64, height: u64, rest: &[u8], out: &mut [u8]) -> Written
    requires { length rest.now ≤ 64 }
    ensures value { result ≡ answer (text (leaf_text number height rest.now)) (length out.old) }
    ensures out_after { out.new ≡ left (text (leaf_text number height rest.now)) out.old }
{
    if out.len() < 17 + text::number_width(number) + text::number_width(height) + rest.len() {
        return Written {
            refusal: NO_ROOM,
            length: 0,
        };
    }
    let length = write_consensus_leaf(out, 0, number, height, rest);
    Written {
        refusal: 0,
        length: length as u64,
    }
}

// `clients/C/consensusStates`, of a client that was accepted.
pub fn fit_parent(client: &[u8], out: &mut [u8]) -> Written
    ensures value { result ≡ answer (text (parent_text client.now)) (length out.old) }
    ensures out_after { out.new ≡ left (text (parent_text client.now)) out.old }
{
    if out.len() < 24 + client.len() {
        return Written {
            refusal: NO_ROOM,
            length: 0,
        };
    }
    let length = write_consensus_parent(out, 0, client);
    Written {
        refusal: 0,
        length: length as u64,
    }
}

// Whether two texts and so many bytes beside them fit the room. The sum is not formed, since it may be larger than any number.
fn fit(room: usize, beside: usize, one: usize, two: usize) -> bool
    ensures { (result ≡ true → beside + one + two ≤ room) × (result ≡ false → room < beside + one + two) }
{
    if room < beside {
        return false;
    }
    let left = room - beside;
    if left < one {
        return false;
    }
    two <= left - one
}

// `ports/P/channels/H/sequences` after the first component, of a port and a channel that were accepted; `first` is that
// component and `/ports/`.
pub fn fit_packets_path(first: &[u8], port: &[u8], channel: &[u8], out: &mut [u8]) -> Written
    requires { length first.now ≤ 64 }
    ensures value { result ≡ answer (text (packets_text first.now port.now channel.now)) (length out.old) }
    ensures out_after { out.new ≡ left (text (packets_text first.now port.now channel.now)) out.old }
{
    if !fit(out.len(), 20 + first.len(), port.len(), channel.len()) {
        return Written {
            refusal: NO_ROOM,
            length: 0,
        };
    }
    let length = write_packets_path(out, 0, first, port, channel);
    Written {
        refusal: 0,
        length: length as u64,
    }
}

// What all client states stand under.
pub fn client_state_prefix(out: &mut [u8]) -> Written
    ensures value { result ≡ answer (text (bytes "clients")) (length out.old) }
    ensures out_after { out.new ≡ left (text (bytes "clients")) out.old }
{
    text::put::give(out, b"clients")
}

// The last part of a client state.
pub fn client_state_leaf(out: &mut [u8]) -> Written
    ensures value { result ≡ answer (text (bytes "clientState")) (length out.old) }
    ensures out_after { out.new ≡ left (text (bytes "clientState")) out.old }
{
    text::put::give(out, b"clientState")
}

// `clients/C/consensusStates`: what the consensus states, processed times and processed heights of a client stand under.
pub fn consensus_state_parent(client: &[u8], out: &mut [u8]) -> Written
    ensures value { result ≡ answer (text_of consensus_parent (carried client.now [] 0 0)) (length out.old) }
    ensures out_after { out.new ≡ left (text_of consensus_parent (carried client.now [] 0 0)) out.old }
{
    checked_parent::<Ascii>(client, out)
}

// `consensusStates/R-h`.
pub fn consensus_state_leaf(
    number: RevisionNumber,
    height: RevisionHeight,
    out: &mut [u8],
) -> Written
    ensures value { result ≡ answer (text_of (consensus_leaf []) (carried [] [] number.0 height.0)) (length out.old) }
    ensures out_after { out.new ≡ left (text_of (consensus_leaf []) (carried [] [] number.0 height.0)) out.old }
{
    fit_leaf(number.0, height.0, b"", out)
}

// `consensusStates/R-h/processedTime`.
pub fn update_time_leaf(number: RevisionNumber, height: RevisionHeight, out: &mut [u8]) -> Written
    ensures value { result ≡ answer (text_of (consensus_leaf (word (bytes "processedTime") ∷ [])) (carried [] [] number.0 height.0)) (length out.old) }
    ensures out_after { out.new ≡ left (text_of (consensus_leaf (word (bytes "processedTime") ∷ [])) (carried [] [] number.0 height.0)) out.old }
{
    fit_leaf(number.0, height.0, b"/processedTime", out)
}

// `consensusStates/R-h/processedHeight`.
pub fn update_height_leaf(number: RevisionNumber, height: RevisionHeight, out: &mut [u8]) -> Written
    ensures value { result ≡ answer (text_of (consensus_leaf (word (bytes "processedHeight") ∷ [])) (carried [] [] number.0 height.0)) (length out.old) }
    ensures out_after { out.new ≡ left (text_of (consensus_leaf (word (bytes "processedHeight") ∷ [])) (carried [] [] number.0 height.0)) out.old }
{
    fit_leaf(number.0, height.0, b"/processedHeight", out)
}

// What all connections stand under.
pub fn connection_prefix(out: &mut [u8]) -> Written
    ensures value { result ≡ answer (text (bytes "connections")) (length out.old) }
    ensures out_after { out.new ≡ left (text (bytes "connections")) out.old }
{
    text::put::give(out, b"connections")
}

// What all channel ends stand under.
pub fn channel_end_prefix(out: &mut [u8]) -> Written
    ensures value { result ≡ answer (text (bytes "channelEnds")) (length out.old) }
    ensures out_after { out.new ≡ left (text (bytes "channelEnds")) out.old }
{
    text::put::give(out, b"channelEnds")
}

// `commitments/ports/P/channels/H/sequences`.
pub fn commitments_path(port: &[u8], channel: &[u8], out: &mut [u8]) -> Written
    ensures value { result ≡ answer (text_of (packets_path (bytes "commitments")) (carried port.now channel.now 0 0)) (length out.old) }
    ensures out_after { out.new ≡ left (text_of (packets_path (bytes "commitments")) (carried port.now channel.now 0 0)) out.old }
{
    checked_packets::<Ascii>(b"commitments/ports/", port, channel, out)
}

// `acks/ports/P/channels/H/sequences`.
pub fn acks_path(port: &[u8], channel: &[u8], out: &mut [u8]) -> Written
    ensures value { result ≡ answer (text_of (packets_path (bytes "acks")) (carried port.now channel.now 0 0)) (length out.old) }
    ensures out_after { out.new ≡ left (text_of (packets_path (bytes "acks")) (carried port.now channel.now 0 0)) out.old }
{
    checked_packets::<Ascii>(b"acks/ports/", port, channel, out)
}

// `receipts/ports/P/channels/H/sequences`.
pub fn receipts_path(port: &[u8], channel: &[u8], out: &mut [u8]) -> Written
    ensures value { result ≡ answer (text_of (packets_path (bytes "receipts")) (carried port.now channel.now 0 0)) (length out.old) }
    ensures out_after { out.new ≡ left (text_of (packets_path (bytes "receipts")) (carried port.now channel.now 0 0)) out.old }
{
    checked_packets::<Ascii>(b"receipts/ports/", port, channel, out)
}

// What all packet commitments stand under.
pub fn commitment_prefix(out: &mut [u8]) -> Written
    ensures value { result ≡ answer (text (bytes "commitments")) (length out.old) }
    ensures out_after { out.new ≡ left (text (bytes "commitments")) out.old }
{
    text::put::give(out, b"commitments")
}

// What all acknowledgements stand under.
pub fn ack_prefix(out: &mut [u8]) -> Written
    ensures value { result ≡ answer (text (bytes "acks")) (length out.old) }
    ensures out_after { out.new ≡ left (text (bytes "acks")) out.old }
{
    text::put::give(out, b"acks")
}

// What all receipts stand under.
pub fn receipt_prefix(out: &mut [u8]) -> Written
    ensures value { result ≡ answer (text (bytes "receipts")) (length out.old) }
    ensures out_after { out.new ≡ left (text (bytes "receipts")) out.old }
{
    text::put::give(out, b"receipts")
}
