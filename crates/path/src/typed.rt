// The typed path of a flat form.
ghost use Rattle.std.specs.Prelude.{◌≡◌, ◌≤◌};
ghost use Rattle.path.specs.Reads.{typed_of};

use crate::{
    ChannelPlaces, ClientPlaces, ConnectionPlaces, ConsensusPlaces, NoPlaces, PacketPlaces, Path,
    PathView, PortPlaces, RevisionHeight, RevisionNumber, Sequence, UpgradePlaces,
};

// Kinds 1 to 3.
fn next_sequence_path(v: PathView) -> Path
    requires { (1 ≤ v.kind) × (v.kind ≤ 3) }
    ensures { result ≡ typed_of v }
{
    let kind = v.kind;
    match kind {
        1 => Path::NextClientSequence(NoPlaces {}),
        2 => Path::NextConnectionSequence(NoPlaces {}),
        _ => Path::NextChannelSequence(NoPlaces {}),
    }
}

// Kinds 4 to 8.
fn client_path(v: PathView) -> Path
    requires { (4 ≤ v.kind) × (v.kind ≤ 8) }
    ensures { result ≡ typed_of v }
{
    let kind = v.kind;
    let first = v.first;
    match kind {
        4 => Path::ClientState(ClientPlaces { client: first }),
        5 => Path::ClientConsensusState(ConsensusPlaces {
            client: first,
            number: RevisionNumber(v.a),
            height: RevisionHeight(v.b),
        }),
        6 => Path::ClientUpdateTime(ConsensusPlaces {
            client: first,
            number: RevisionNumber(v.a),
            height: RevisionHeight(v.b),
        }),
        7 => Path::ClientUpdateHeight(ConsensusPlaces {
            client: first,
            number: RevisionNumber(v.a),
            height: RevisionHeight(v.b),
        }),
        _ => Path::ClientConnection(ClientPlaces { client: first }),
    }
}

// Kinds 9 to 14.
fn channel_path(v: PathView) -> Path
    requires { (9 ≤ v.kind) × (v.kind ≤ 14) }
    ensures { result ≡ typed_of v }
{
    let kind = v.kind;
    let first = v.first;
    let second = v.second;
    match kind {
        9 => Path::Connection(ConnectionPlaces { connection: first }),
        10 => Path::Ports(PortPlaces { port: first }),
        11 => Path::ChannelEnd(ChannelPlaces {
            port: first,
            channel: second,
        }),
        12 => Path::SeqSend(ChannelPlaces {
            port: first,
            channel: second,
        }),
        13 => Path::SeqRecv(ChannelPlaces {
            port: first,
            channel: second,
        }),
        _ => Path::SeqAck(ChannelPlaces {
            port: first,
            channel: second,
        }),
    }
}

// Kinds 15 to 17.
fn packet_path(v: PathView) -> Path
    requires { (15 ≤ v.kind) × (v.kind ≤ 17) }
    ensures { result ≡ typed_of v }
{
    let kind = v.kind;
    let first = v.first;
    let second = v.second;
    match kind {
        15 => Path::Commitment(PacketPlaces {
            port: first,
            channel: second,
            sequence: Sequence(v.a),
        }),
        16 => Path::Ack(PacketPlaces {
            port: first,
            channel: second,
            sequence: Sequence(v.a),
        }),
        _ => Path::Receipt(PacketPlaces {
            port: first,
            channel: second,
            sequence: Sequence(v.a),
        }),
    }
}

// Kinds 18 to 19.
fn upgrade_path(v: PathView) -> Path
    requires { (18 ≤ v.kind) × (v.kind ≤ 19) }
    ensures { result ≡ typed_of v }
{
    let kind = v.kind;
    let first = v.first;
    match kind {
        18 => Path::UpgradeClientState(UpgradePlaces {
            upgrade: first,
            height: RevisionHeight(v.a),
        }),
        _ => Path::UpgradeConsensusState(UpgradePlaces {
            upgrade: first,
            height: RevisionHeight(v.a),
        }),
    }
}

// The path of a flat form that has a kind.
pub fn typed_path(v: PathView) -> Path
    requires { (1 ≤ v.kind) × (v.kind ≤ 19) }
    ensures { result ≡ typed_of v }
{
    if v.kind < 4 {
        return next_sequence_path(v);
    }
    if v.kind < 9 {
        return client_path(v);
    }
    if v.kind < 15 {
        return channel_path(v);
    }
    if v.kind < 18 {
        return packet_path(v);
    }
    upgrade_path(v)
}
