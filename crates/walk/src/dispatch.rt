// The family of a text, chosen by its first eight bytes.
ghost use Rattle.std.specs.Prelude.{◌≡◌, true};
ghost use Rattle.text.specs.Bytes.{bytes};
ghost use Rattle.text.specs.Part.{starts_with};
ghost use Rattle.path.specs.Kinds.{kind10};
ghost use Rattle.path.specs.Read.{read_first};
ghost use Rattle.walk_scan.specs.Tail.{tail_of};
ghost use Rattle.walk_families.specs.Flat.{walked, flat, listed};

use crate::opening::find_opening;
use path::PathView;
use walk_families::client::client;
use walk_families::ends::after_ports;
use walk_families::name::{connection, port};

// Kind 9.
fn connections(text: &[u8]) -> Option<PathView>
    requires { starts_with (bytes "connecti") text.now ≡ true }
    ensures { result ≡ flat text.now (read_first listed text.now) }
{
    if walk_words::is_connections(text, 0) {
        return connection(text, 12);
    }
    None
}

// Kind 10.
fn ports(text: &[u8]) -> Option<PathView>
    ensures { result ≡ walked 10 (tail_of kind10.parts 0 text.now) }
{
    if walk_words::is_ports(text, 0) {
        return port(text, 6);
    }
    None
}

// Kinds 4 to 17.
pub(crate) fn by_word(text: &[u8]) -> Option<PathView>
    ensures { result ≡ flat text.now (read_first listed text.now) }
{
    if walk_words::is_clients_open(text, 0) {
        return client(text);
    }
    if let Some(o) = find_opening(text) {
        return after_ports(text, o.at, o.kind);
    }
    if walk_words::is_head_connections(text, 0) {
        return connections(text);
    }
    ports(text)
}
