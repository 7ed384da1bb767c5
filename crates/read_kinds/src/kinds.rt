// The readers of the nineteen kinds, after the Rust's functions. Each reads the cut text.
ghost use Rattle.std.specs.Prelude.{◌≡◌, ◌∷◌, [], true};
ghost use Rattle.text.specs.Part.{ascii};
ghost use Rattle.path.specs.Kinds.{kinds, kind1, kind2, kind3, kind4, kind5, kind6, kind7, kind8, kind9, kind10, kind11, kind12, kind13, kind14, kind15, kind16, kind17, kind18, kind19};
ghost use Rattle.path.specs.Read.{read_first};

use path::{ClientPlaces, ConnectionPlaces, NoPlaces, Path, PortPlaces, UpgradePlaces};
use read_pieces::cutter::CutText;
use read_pieces::{
    read_client, read_connection, read_consensus, read_ends, read_height, read_packet, read_port,
};

// Kinds 1 to 3.
fn parse_next_sequence(text: CutText) -> Option<Path>
    requires { text.cut.count ≡ 1 }
    ensures { result ≡ read_first (kind1 ∷ kind2 ∷ kind3 ∷ []) text.entry.text.now }
{
    if text.is_word(0, b"nextClientSequence") {
        return Some(Path::NextClientSequence(NoPlaces {}));
    }
    if text.is_word(0, b"nextConnectionSequence") {
        return Some(Path::NextConnectionSequence(NoPlaces {}));
    }
    if text.is_word(0, b"nextChannelSequence") {
        return Some(Path::NextChannelSequence(NoPlaces {}));
    }
    None
}

// Kinds 4 and 8.
fn parse_clients(text: CutText) -> Option<Path>
    requires { text.cut.count ≡ 3 }
    ensures { result ≡ read_first (kind4 ∷ kind8 ∷ []) text.entry.text.now }
{
    let Some(client) = read_client(text, 0) else {
        return None;
    };
    if text.is_word(2, b"clientState") {
        return Some(Path::ClientState(ClientPlaces { client }));
    }
    if text.is_word(2, b"connections") {
        return Some(Path::ClientConnection(ClientPlaces { client }));
    }
    None
}

// Kind 5.
fn parse_consensus_states(text: CutText) -> Option<Path>
    requires { text.cut.count ≡ 4 }
    ensures { result ≡ read_first (kind5 ∷ []) text.entry.text.now }
{
    let Some(places) = read_consensus(text) else {
        return None;
    };
    Some(Path::ClientConsensusState(places))
}

// Kinds 6 and 7.
fn parse_updates(text: CutText) -> Option<Path>
    requires { text.cut.count ≡ 5 }
    ensures { result ≡ read_first (kind6 ∷ kind7 ∷ []) text.entry.text.now }
{
    let Some(places) = read_consensus(text) else {
        return None;
    };
    if text.is_word(4, b"processedTime") {
        return Some(Path::ClientUpdateTime(places));
    }
    if text.is_word(4, b"processedHeight") {
        return Some(Path::ClientUpdateHeight(places));
    }
    None
}

// Kind 9.
fn parse_connections(text: CutText) -> Option<Path>
    requires { text.cut.count ≡ 2 }
    ensures { result ≡ read_first (kind9 ∷ []) text.entry.text.now }
{
    let Some(connection) = read_connection(text, 0) else {
        return None;
    };
    Some(Path::Connection(ConnectionPlaces { connection }))
}

// Kind 10.
fn parse_ports(text: CutText) -> Option<Path>
    requires { text.cut.count ≡ 2 }
    ensures { result ≡ read_first (kind10 ∷ []) text.entry.text.now }
{
    let Some(port) = read_port(text, 0) else {
        return None;
    };
    Some(Path::Ports(PortPlaces { port }))
}

// Kinds 11 to 14.
fn parse_channel_ends(text: CutText) -> Option<Path>
    requires { text.cut.count ≡ 5 }
    ensures { result ≡ read_first (kind11 ∷ kind12 ∷ kind13 ∷ kind14 ∷ []) text.entry.text.now }
{
    let Some(places) = read_ends(text) else {
        return None;
    };
    if text.is_word(0, b"channelEnds") {
        return Some(Path::ChannelEnd(places));
    }
    if text.is_word(0, b"nextSequenceSend") {
        return Some(Path::SeqSend(places));
    }
    if text.is_word(0, b"nextSequenceRecv") {
        return Some(Path::SeqRecv(places));
    }
    if text.is_word(0, b"nextSequenceAck") {
        return Some(Path::SeqAck(places));
    }
    None
}

// Kinds 15 to 17.
fn parse_packets(text: CutText) -> Option<Path>
    requires { text.cut.count ≡ 7 }
    ensures { result ≡ read_first (kind15 ∷ kind16 ∷ kind17 ∷ []) text.entry.text.now }
{
    let Some(places) = read_packet(text) else {
        return None;
    };
    if text.is_word(0, b"commitments") {
        return Some(Path::Commitment(places));
    }
    if text.is_word(0, b"acks") {
        return Some(Path::Ack(places));
    }
    if text.is_word(0, b"receipts") {
        return Some(Path::Receipt(places));
    }
    None
}

// Kinds 18 and 19. Every component of an ASCII text can stand as U.
fn parse_upgrades(text: CutText) -> Option<Path>
    requires { (text.cut.count ≡ 3) × (ascii text.text.now ≡ true) }
    ensures { result ≡ read_first (kind18 ∷ kind19 ∷ []) text.entry.text.now }
{
    let Some(height) = read_height(text, 1) else {
        return None;
    };
    let places = UpgradePlaces {
        upgrade: text.place(0),
        height,
    };
    if text.is_word(2, b"upgradedClient") {
        return Some(Path::UpgradeClientState(places));
    }
    if text.is_word(2, b"upgradedConsState") {
        return Some(Path::UpgradeConsensusState(places));
    }
    None
}

// The readers of the kinds that have as many components as the text. Where a `clients/..` text fails by its client,
// kinds 18 and 19 still get their turn. What fits one of the others is ASCII; only U has to be tested for it.
pub(crate) fn parse_components(text: CutText) -> Option<Path>
    ensures { result ≡ read_first kinds text.entry.text.now }
{
    let count = text.cut.count;
    if count == 1 {
        return parse_next_sequence(text);
    }
    if count == 2 {
        if text.is_word(0, b"connections") {
            return parse_connections(text);
        }
        return parse_ports(text);
    }
    if count == 3 {
        let client = parse_clients(text);
        if client.is_some() {
            return client;
        }
        if !text::part::all_ascii(text.text) {
            return None;
        }
        return parse_upgrades(text);
    }
    if count == 4 {
        return parse_consensus_states(text);
    }
    if count == 5 {
        if text.is_word(0, b"clients") {
            return parse_updates(text);
        }
        return parse_channel_ends(text);
    }
    if count == 7 {
        return parse_packets(text);
    }
    None
}
