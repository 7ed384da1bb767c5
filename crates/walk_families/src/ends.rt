// Kinds 11 to 17: `P/channels/H`, and for a packet its sequence.
ghost use Rattle.std.specs.Prelude.{◌≡◌, ◌≤◌, length, drop, MatchOption};
ghost use Rattle.walk_scan.specs.Tail.{tail_of};
ghost use Rattle.walk_families.specs.Flat.{walked, ends_parts, ends_of};
ghost use Rattle.walk_families.specs.Ends.{EndsAt, NoEnds};

use crate::packet::packet;
use path::{PathView, Place};
use walk_scan::name::{channel_length, plain_length};
use walk_words::is_channels;

// The lengths of P and H in `P/channels/H`.
#[derive(Clone, Copy)]
pub struct Ends {
    pub port: usize,
    pub channel: usize,
}

// `P/channels/H` from `at` on.
fn ends_at(text: &[u8], at: usize) -> Option<Ends>
    requires { at ≤ length text.now }
    ensures { MatchOption result (NoEnds text.now at) (EndsAt text.now at) }
{
    let port = plain_length(text, at, 2, 128)?;
    if !is_channels(text, at + port) {
        return None;
    }
    let channel = channel_length(text, at + port + 10)?;
    Some(Ends { port, channel })
}

// Kinds 11 to 14: no more than `P/channels/H`.
fn channel(text: &[u8], at: usize, kind: u8, e: Ends) -> Option<PathView>
    requires { EndsAt text.now at e }
    ensures { result ≡ walked kind (tail_of ends_parts at (drop at text.now)) }
{
    let port = e.port;
    let channel = e.channel;
    let start = at + port + 10;
    if start + channel != text.len() {
        return None;
    }
    Some(PathView {
        kind,
        exact: true,
        first: Place {
            start: at,
            len: port,
        },
        second: Place {
            start,
            len: channel,
        },
        a: 0,
        b: 0,
    })
}

// What follows `W/ports/` in a text of this kind. It is one function for all seven kinds, so that the compiler has one
// place to put it, and no call is left.
pub fn after_ports(text: &[u8], at: usize, kind: u8) -> Option<PathView>
    requires { at ≤ length text.now }
    ensures { result ≡ walked kind (tail_of (ends_of kind) at (drop at text.now)) }
{
    let e = ends_at(text, at)?;
    if kind < 15 {
        return channel(text, at, kind, e);
    }
    packet(text, at, kind, e)
}
