// Kinds 15 to 17.
ghost use Rattle.std.specs.Prelude.{◌≡◌, drop};
ghost use Rattle.walk_scan.specs.Tail.{tail_of};
ghost use Rattle.walk_families.specs.Flat.{walked, packet_parts};
ghost use Rattle.walk_families.specs.Ends.{EndsAt};

use crate::ends::Ends;
use path::{PathView, Place};
use walk_scan::number::number;
use walk_words::is_sequences;

// `P/channels/H/sequences/S` from `at` on, of which the first three are found.
pub(crate) fn packet(text: &[u8], at: usize, kind: u8, e: Ends) -> Option<PathView>
    requires { EndsAt text.now at e }
    ensures { result ≡ walked kind (tail_of packet_parts at (drop at text.now)) }
{
    let port = e.port;
    let channel = e.channel;
    let start = at + port + 10;
    let end = start + channel;
    if !is_sequences(text, end) {
        return None;
    }
    let n = number(text, end + 11)?;
    if n.end != text.len() {
        return None;
    }
    Some(PathView {
        kind,
        exact: n.plain,
        first: Place {
            start: at,
            len: port,
        },
        second: Place {
            start,
            len: channel,
        },
        a: n.value,
        b: 0,
    })
}
