// Which of the kinds 11 to 17 a text begins as.
ghost use Rattle.std.specs.Prelude.{◌≡◌, true, MatchOption};
ghost use Rattle.text.specs.Bytes.{bytes};
ghost use Rattle.text.specs.Part.{starts_with};
ghost use Rattle.walk.specs.Opening.{NoneOf, openings, Opens};

// A kind whose `W/ports/` stands at the start of a text, and the place behind it.
#[derive(Clone, Copy)]
pub(crate) struct Opening {
    pub(crate) kind: u8,
    pub(crate) at: usize,
}

// Kinds 12 to 14.
fn next_sequence(text: &[u8]) -> Option<Opening>
    requires { starts_with (bytes "nextSequ") text.now ≡ true }
    ensures { MatchOption result (NoneOf openings text.now) (Opens text.now) }
{
    if walk_words::is_next_sequence_send(text, 0) {
        return Some(Opening { kind: 12, at: 23 });
    }
    if walk_words::is_next_sequence_recv(text, 0) {
        return Some(Opening { kind: 13, at: 23 });
    }
    walk_words::is_next_sequence_ack(text, 0).then_some(Opening { kind: 14, at: 22 })
}

// Kinds 11 to 17: the first eight bytes choose, and the rest of `W/ports/` decides.
pub(crate) fn find_opening(text: &[u8]) -> Option<Opening>
    ensures { MatchOption result (NoneOf openings text.now) (Opens text.now) }
{
    if walk_words::is_head_channel_ends(text, 0) {
        return walk_words::is_channel_ends(text, 0).then_some(Opening { kind: 11, at: 18 });
    }
    if walk_words::is_head_commitments(text, 0) {
        return walk_words::is_commitments(text, 0).then_some(Opening { kind: 15, at: 18 });
    }
    if walk_words::is_head_acks(text, 0) {
        return walk_words::is_acks(text, 0).then_some(Opening { kind: 16, at: 11 });
    }
    if walk_words::is_head_receipts(text, 0) {
        return walk_words::is_receipts(text, 0).then_some(Opening { kind: 17, at: 15 });
    }
    if walk_words::is_head_next_sequence(text, 0) {
        return next_sequence(text);
    }
    None
}
