// The typed path.
#![tactic(auto)]

mod carried;
pub mod measure;
pub mod name;
pub mod provable;
pub mod typed;

ghost use Rattle.std.specs.Prelude.{◌≡◌};
ghost use Rattle.path.specs.Read.{as_fault, number_of};
ghost use Rattle.path.specs.Revision.{below};
ghost use Rattle.path.specs.View.{view_of};

use text::Fault;
use text::refusal::{NO_DIGITS, NOT_A_DIGIT, NOT_A_PATH, NOT_ASCII, TOO_LARGE, TOO_LONG};

// A part of the caller's text: where it starts, and its length.
#[derive(Clone, Copy)]
pub struct Place {
    pub start: usize,
    pub len: usize,
}

// Three kinds of count, so that a sequence never stands where a height should.
#[derive(Clone, Copy, PartialEq, Eq, PartialOrd, Ord)]
pub struct RevisionNumber(pub u64);

#[derive(Clone, Copy, PartialEq, Eq, PartialOrd, Ord)]
pub struct RevisionHeight(pub u64);

#[derive(Clone, Copy)]
pub struct Sequence(pub u64);

// A revision: its two counts, which stay apart. The numbers decide its order, and where they are equal the heights.
#[derive(Clone, Copy, PartialEq, Eq, PartialOrd, Ord)]
pub struct Revision {
    pub number: RevisionNumber,
    pub height: RevisionHeight,
}

// A revision number and height as they cross to C: 0 and the two, or a refusal and zeros.
#[repr(C)]
#[derive(Clone, Copy)]
pub struct Pair {
    pub refusal: u8,
    pub number: u64,
    pub height: u64,
}

#[derive(Clone, Copy)]
pub struct NoPlaces {}

#[derive(Clone, Copy)]
pub struct ClientPlaces {
    pub client: Place,
}

#[derive(Clone, Copy)]
pub struct ConsensusPlaces {
    pub client: Place,
    pub number: RevisionNumber,
    pub height: RevisionHeight,
}

#[derive(Clone, Copy)]
pub struct ConnectionPlaces {
    pub connection: Place,
}

#[derive(Clone, Copy)]
pub struct PortPlaces {
    pub port: Place,
}

#[derive(Clone, Copy)]
pub struct ChannelPlaces {
    pub port: Place,
    pub channel: Place,
}

#[derive(Clone, Copy)]
pub struct PacketPlaces {
    pub port: Place,
    pub channel: Place,
    pub sequence: Sequence,
}

#[derive(Clone, Copy)]
pub struct UpgradePlaces {
    pub upgrade: Place,
    pub height: RevisionHeight,
}

#[derive(Clone, Copy)]
pub enum Path {
    NextClientSequence(NoPlaces),
    NextConnectionSequence(NoPlaces),
    NextChannelSequence(NoPlaces),
    ClientState(ClientPlaces),
    ClientConsensusState(ConsensusPlaces),
    ClientUpdateTime(ConsensusPlaces),
    ClientUpdateHeight(ConsensusPlaces),
    ClientConnection(ClientPlaces),
    Connection(ConnectionPlaces),
    Ports(PortPlaces),
    ChannelEnd(ChannelPlaces),
    SeqSend(ChannelPlaces),
    SeqRecv(ChannelPlaces),
    SeqAck(ChannelPlaces),
    Commitment(PacketPlaces),
    Ack(PacketPlaces),
    Receipt(PacketPlaces),
    UpgradeClientState(UpgradePlaces),
    UpgradeConsensusState(UpgradePlaces),
}

// The cut text: where each of the first eight components starts, zero past the last, and how many there are. A count
// of eight tells "more than seven".
#[derive(Clone, Copy)]
pub struct Cut {
    pub starts: [usize; 8],
    pub count: usize,
}

// Why a text is no path. The last three are of a text whose number alone is wrong, each with the place of its fault.
#[derive(Clone, Copy)]
pub enum Refusal {
    TooLong,
    NotAscii,
    NotAPath,
    NoDigits(usize),
    NotADigit(usize),
    TooLarge(usize),
}

// A path that was read; exact where its rendering is the text itself.
#[derive(Clone, Copy)]
pub struct ReadPath {
    pub path: Path,
    pub exact: bool,
}

// What a text reads as, or why it is no path.
pub type Reading = Result<ReadPath, Refusal>;

// A path in one flat form: its kind's number, the mark of its text, places and numbers. What the kind lacks is the empty part
// at the start, or 0. Kind 0 is of no path.
#[derive(Clone, Copy)]
pub struct PathView {
    pub kind: u8,
    pub exact: bool,
    pub first: Place,
    pub second: Place,
    pub a: u64,
    pub b: u64,
}

// What a path shows, of a text with this mark.
pub fn view(p: Path, exact: bool) -> PathView
    ensures { result ≡ view_of p exact }
{
    match p {
        Path::NextClientSequence(_) => carried::bare(1, exact),
        Path::NextConnectionSequence(_) => carried::bare(2, exact),
        Path::NextChannelSequence(_) => carried::bare(3, exact),
        Path::ClientState(x) => carried::client(4, exact, x),
        Path::ClientConsensusState(x) => carried::consensus(5, exact, x),
        Path::ClientUpdateTime(x) => carried::consensus(6, exact, x),
        Path::ClientUpdateHeight(x) => carried::consensus(7, exact, x),
        Path::ClientConnection(x) => carried::client(8, exact, x),
        Path::Connection(x) => carried::connection(9, exact, x),
        Path::Ports(x) => carried::port(10, exact, x),
        Path::ChannelEnd(x) => carried::channel(11, exact, x),
        Path::SeqSend(x) => carried::channel(12, exact, x),
        Path::SeqRecv(x) => carried::channel(13, exact, x),
        Path::SeqAck(x) => carried::channel(14, exact, x),
        Path::Commitment(x) => carried::packet(15, exact, x),
        Path::Ack(x) => carried::packet(16, exact, x),
        Path::Receipt(x) => carried::packet(17, exact, x),
        Path::UpgradeClientState(x) => carried::upgrade(18, exact, x),
        Path::UpgradeConsensusState(x) => carried::upgrade(19, exact, x),
    }
}

// Whether p is below q: the numbers decide, and where they are equal the heights.
pub fn is_below(p: Revision, q: Revision) -> bool
    ensures { result ≡ below p q }
{
    p < q
}

// A refusal with its number and place.
pub fn fault_of(why: Refusal) -> Fault
    ensures { result ≡ as_fault why }
{
    match why {
        Refusal::TooLong => Fault {
            refusal: TOO_LONG,
            place: 0,
        },
        Refusal::NotAscii => Fault {
            refusal: NOT_ASCII,
            place: 0,
        },
        Refusal::NotAPath => Fault {
            refusal: NOT_A_PATH,
            place: 0,
        },
        Refusal::NoDigits(i) => Fault {
            refusal: NO_DIGITS,
            place: i as u64,
        },
        Refusal::NotADigit(i) => Fault {
            refusal: NOT_A_DIGIT,
            place: i as u64,
        },
        Refusal::TooLarge(i) => Fault {
            refusal: TOO_LARGE,
            place: i as u64,
        },
    }
}

// The refusal number of a reading, 0 where the text was read.
pub fn refusal_of(reading: Reading) -> u8
    ensures { result ≡ number_of reading }
{
    match reading {
        Ok(_) => 0,
        Err(why) => {
            let fault = fault_of(why);
            fault.refusal
        }
    }
}
