// What each kind of struct in a path shows, under a kind's number.
ghost use Rattle.std.specs.Prelude.{◌≡◌};
ghost use Rattle.path.specs.Kinds.{carried};
ghost use Rattle.path.specs.Text.{nowhere};
ghost use Rattle.path.specs.View.{seen};

use crate::{
    ChannelPlaces, ClientPlaces, ConnectionPlaces, ConsensusPlaces, PacketPlaces, PathView, Place,
    PortPlaces, UpgradePlaces,
};

fn one_place(kind: u8, exact: bool, first: Place, a: u64, b: u64) -> PathView
    ensures { result ≡ seen kind exact (carried first nowhere a b) }
{
    PathView {
        kind,
        exact,
        first,
        second: Place { start: 0, len: 0 },
        a,
        b,
    }
}

pub(crate) fn bare(kind: u8, exact: bool) -> PathView
    ensures { result ≡ seen kind exact (carried nowhere nowhere 0 0) }
{
    one_place(kind, exact, Place { start: 0, len: 0 }, 0, 0)
}

pub(crate) fn client(kind: u8, exact: bool, x: ClientPlaces) -> PathView
    ensures { result ≡ seen kind exact (carried x.client nowhere 0 0) }
{
    let client = x.client;
    one_place(kind, exact, client, 0, 0)
}

pub(crate) fn consensus(kind: u8, exact: bool, x: ConsensusPlaces) -> PathView
    ensures { result ≡ seen kind exact (carried x.client nowhere x.number.0 x.height.0) }
{
    let client = x.client;
    one_place(kind, exact, client, x.number.0, x.height.0)
}

pub(crate) fn connection(kind: u8, exact: bool, x: ConnectionPlaces) -> PathView
    ensures { result ≡ seen kind exact (carried x.connection nowhere 0 0) }
{
    let connection = x.connection;
    one_place(kind, exact, connection, 0, 0)
}

pub(crate) fn port(kind: u8, exact: bool, x: PortPlaces) -> PathView
    ensures { result ≡ seen kind exact (carried x.port nowhere 0 0) }
{
    let port = x.port;
    one_place(kind, exact, port, 0, 0)
}

pub(crate) fn upgrade(kind: u8, exact: bool, x: UpgradePlaces) -> PathView
    ensures { result ≡ seen kind exact (carried x.upgrade nowhere x.height.0 0) }
{
    let upgrade = x.upgrade;
    one_place(kind, exact, upgrade, x.height.0, 0)
}

pub(crate) fn channel(kind: u8, exact: bool, x: ChannelPlaces) -> PathView
    ensures { result ≡ seen kind exact (carried x.port x.channel 0 0) }
{
    let first = x.port;
    let second = x.channel;
    PathView {
        kind,
        exact,
        first,
        second,
        a: 0,
        b: 0,
    }
}

pub(crate) fn packet(kind: u8, exact: bool, x: PacketPlaces) -> PathView
    ensures { result ≡ seen kind exact (carried x.port x.channel x.sequence.0 0) }
{
    let first = x.port;
    let second = x.channel;
    PathView {
        kind,
        exact,
        first,
        second,
        a: x.sequence.0,
        b: 0,
    }
}
