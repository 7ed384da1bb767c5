// The cut text, and the readers of some of its components. Each answers what it finds, or nothing.
#![tactic(auto)]

pub mod cutter;

ghost use Rattle.std.specs.Prelude.{◌≡◌, ◌+◌, ◌<◌};
ghost use Rattle.text.specs.Bytes.{bytes};
ghost use Rattle.path.specs.declared.name.Name.TheVariants.{Client as client, Connection as connection, Port as port, Channel as channel};
ghost use Rattle.read_pieces.specs.Pieces.{place_after, sequence_after, height_at, revision_after, revision_in, first_dash, consensus_in, ends_in, packet_in};

use cutter::CutText;
use path::name::{Name, name_fault};
use path::{
    ChannelPlaces, ConsensusPlaces, PacketPlaces, Place, Revision, RevisionHeight, RevisionNumber,
    Sequence,
};

// The word w at component k, and an identifier after it.
fn read_name(text: CutText, k: usize, w: &[u8], name: Name) -> Option<Place>
    requires { (k + 1 < text.cut.count) × (text.cut.count < 8) }
    ensures { result ≡ place_after w.now name text.entry.text.now k }
{
    if !text.is_word(k, w) {
        return None;
    }
    if name_fault(name, text.component(k + 1)) != 0 {
        return None;
    }
    Some(text.place(k + 1))
}

// `clients` at component k, and a client after it.
pub fn read_client(text: CutText, k: usize) -> Option<Place>
    requires { (k + 1 < text.cut.count) × (text.cut.count < 8) }
    ensures { result ≡ place_after (bytes "clients") client text.entry.text.now k }
{
    read_name(text, k, b"clients", Name::Client)
}

// `connections` at component k, and a connection after it.
pub fn read_connection(text: CutText, k: usize) -> Option<Place>
    requires { (k + 1 < text.cut.count) × (text.cut.count < 8) }
    ensures { result ≡ place_after (bytes "connections") connection text.entry.text.now k }
{
    read_name(text, k, b"connections", Name::Connection)
}

// `ports` at component k, and a port after it.
pub fn read_port(text: CutText, k: usize) -> Option<Place>
    requires { (k + 1 < text.cut.count) × (text.cut.count < 8) }
    ensures { result ≡ place_after (bytes "ports") port text.entry.text.now k }
{
    read_name(text, k, b"ports", Name::Port)
}

// `channels` at component k, and a channel after it.
fn read_channel(text: CutText, k: usize) -> Option<Place>
    requires { (k + 1 < text.cut.count) × (text.cut.count < 8) }
    ensures { result ≡ place_after (bytes "channels") channel text.entry.text.now k }
{
    read_name(text, k, b"channels", Name::Channel)
}

// `sequences` at component k, and a number after it.
fn read_sequence(text: CutText, k: usize) -> Option<Sequence>
    requires { (k + 1 < text.cut.count) × (text.cut.count < 8) }
    ensures { result ≡ sequence_after text.entry.text.now k }
{
    if !text.is_word(k, b"sequences") {
        return None;
    }
    let Ok(n) = text::read_number(text.component(k + 1)) else {
        return None;
    };
    Some(Sequence(n))
}

// A number at component k.
pub fn read_height(text: CutText, k: usize) -> Option<RevisionHeight>
    requires { (k < text.cut.count) × (text.cut.count < 8) }
    ensures { result ≡ height_at text.entry.text.now k }
{
    let Ok(n) = text::read_number(text.component(k)) else {
        return None;
    };
    Some(RevisionHeight(n))
}

// Where the first dash stands: the length where there is none.
pub fn first_dash(s: &[u8]) -> usize
    ensures { result ≡ first_dash s.now }
{
    s.iter().position(|&b| b == b'-').unwrap_or(s.len())
}

// Two numbers with one dash between. A second dash is no digit, so the second number fails at it.
fn revision_in(s: &[u8]) -> Option<Revision>
    ensures { result ≡ revision_in s.now }
{
    let dash = first_dash(s);
    if dash == s.len() {
        return None;
    }
    let Ok(number) = text::read_number(&s[..dash]) else {
        return None;
    };
    let after = dash + 1;
    let Ok(height) = text::read_number(&s[after..]) else {
        return None;
    };
    Some(Revision {
        number: RevisionNumber(number),
        height: RevisionHeight(height),
    })
}

// `consensusStates` at component k, and a revision number and height after it.
fn read_revision(text: CutText, k: usize) -> Option<Revision>
    requires { (k + 1 < text.cut.count) × (text.cut.count < 8) }
    ensures { result ≡ revision_after text.entry.text.now k }
{
    if !text.is_word(k, b"consensusStates") {
        return None;
    }
    revision_in(text.component(k + 1))
}

// `clients/C/consensusStates/R-h` at the start.
pub fn read_consensus(text: CutText) -> Option<ConsensusPlaces>
    requires { (3 < text.cut.count) × (text.cut.count < 8) }
    ensures { result ≡ consensus_in text.entry.text.now }
{
    let Some(client) = read_client(text, 0) else {
        return None;
    };
    let Some(revision) = read_revision(text, 2) else {
        return None;
    };
    Some(ConsensusPlaces {
        client,
        number: revision.number,
        height: revision.height,
    })
}

// `ports/P/channels/H` after the first component.
pub fn read_ends(text: CutText) -> Option<ChannelPlaces>
    requires { (4 < text.cut.count) × (text.cut.count < 8) }
    ensures { result ≡ ends_in text.entry.text.now }
{
    let Some(port) = read_port(text, 1) else {
        return None;
    };
    let Some(channel) = read_channel(text, 3) else {
        return None;
    };
    Some(ChannelPlaces { port, channel })
}

// `ports/P/channels/H/sequences/S` after the first component.
pub fn read_packet(text: CutText) -> Option<PacketPlaces>
    requires { (6 < text.cut.count) × (text.cut.count < 8) }
    ensures { result ≡ packet_in text.entry.text.now }
{
    let Some(ends) = read_ends(text) else {
        return None;
    };
    let Some(sequence) = read_sequence(text, 5) else {
        return None;
    };
    Some(PacketPlaces {
        port: ends.port,
        channel: ends.channel,
        sequence,
    })
}
