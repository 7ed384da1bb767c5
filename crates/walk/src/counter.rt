// Kinds 1 to 3, which are a word each: the length of a text chooses the one that it can be.
ghost use Rattle.std.specs.Prelude.{◌≡◌};
ghost use Rattle.path.specs.Read.{read_first};
ghost use Rattle.walk_families.specs.Flat.{flat, counters};

use path::PathView;
use walk_families::bare;
use walk_words::{is_next_channel_sequence, is_next_client_sequence, is_next_connection_sequence};

// Kinds 1 to 3, told where they are asked for: of a call the view would go through memory.
#[inline(always)]
pub(crate) fn counter_here(text: &[u8]) -> Option<PathView>
    ensures { result ≡ flat text.now (read_first counters text.now) }
{
    match text.len() {
        18 => is_next_client_sequence(text, 0).then_some(bare(1, 0, 0)),
        22 => is_next_connection_sequence(text, 0).then_some(bare(2, 0, 0)),
        19 => is_next_channel_sequence(text, 0).then_some(bare(3, 0, 0)),
        _ => None,
    }
}

// The same by a call, for what hands its view on.
#[inline(never)]
pub(crate) fn counter(text: &[u8]) -> Option<PathView>
    ensures { result ≡ flat text.now (read_first counters text.now) }
{
    counter_here(text)
}
