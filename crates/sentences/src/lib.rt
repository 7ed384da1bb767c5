// The sentence of a refusal, written for whoever asked.
#![tactic(auto)]

ghost use Rattle.std.specs.Prelude.{◌≡◌, ◌+◌, ◌≤◌, length};
ghost use Rattle.text.specs.Put.{put, text, answer, left};
ghost use Rattle.text.specs.Refusal.{sentence};

use text::Written;
use text::put::{give, write_text};
use text::refusal::{
    ABSENT, ABSENT_SAYS, BAD_BLOCK, BAD_BLOCK_SAYS, BAD_BOOK, BAD_BOOK_SAYS, BAD_CHAR,
    BAD_CHAR_SAYS, BAD_ITER_KEY, BAD_ITER_KEY_SAYS, BAD_KIND, BAD_KIND_SAYS, BAD_LENGTH,
    BAD_LENGTH_SAYS, BAD_OWNER, BAD_OWNER_SAYS, BAD_PREFIX, BAD_PREFIX_SAYS, BAD_SEGMENT,
    BAD_SEGMENT_SAYS, BAD_TABLE, BAD_TABLE_SAYS, BAD_UTF8, BAD_UTF8_SAYS, BAD_V2_KEY,
    BAD_V2_KEY_SAYS, DONE, DONE_SAYS, FULL, FULL_SAYS, KEY_TOO_LONG, KEY_TOO_LONG_SAYS, LOOSE,
    LOOSE_SAYS, NO_DIGITS, NO_DIGITS_SAYS, NO_ROOM, NO_ROOM_SAYS, NOT_A_DIGIT, NOT_A_DIGIT_SAYS,
    NOT_A_PATH, NOT_A_PATH_SAYS, NOT_ASCII, NOT_ASCII_SAYS, RETIRED, RETIRED_SAYS, TOO_LARGE,
    TOO_LARGE_SAYS, TOO_LONG, TOO_LONG_SAYS,
};

// The sentence of a refusal, `done` for 0, and nothing for a number that is none.
#[tactic(auto, unfolding(text::specs::Refusal::sentence))]
fn says(number: u8) -> &'static [u8]
    ensures { result.now ≡ sentence number }
{
    match number {
        DONE => &DONE_SAYS,
        TOO_LONG => &TOO_LONG_SAYS,
        NOT_ASCII => &NOT_ASCII_SAYS,
        NOT_A_PATH => &NOT_A_PATH_SAYS,
        NO_ROOM => &NO_ROOM_SAYS,
        BAD_CHAR => &BAD_CHAR_SAYS,
        BAD_LENGTH => &BAD_LENGTH_SAYS,
        BAD_PREFIX => &BAD_PREFIX_SAYS,
        BAD_BOOK => &BAD_BOOK_SAYS,
        KEY_TOO_LONG => &KEY_TOO_LONG_SAYS,
        FULL => &FULL_SAYS,
        ABSENT => &ABSENT_SAYS,
        BAD_SEGMENT => &BAD_SEGMENT_SAYS,
        BAD_KIND => &BAD_KIND_SAYS,
        BAD_ITER_KEY => &BAD_ITER_KEY_SAYS,
        BAD_BLOCK => &BAD_BLOCK_SAYS,
        NO_DIGITS => &NO_DIGITS_SAYS,
        NOT_A_DIGIT => &NOT_A_DIGIT_SAYS,
        TOO_LARGE => &TOO_LARGE_SAYS,
        LOOSE => &LOOSE_SAYS,
        BAD_UTF8 => &BAD_UTF8_SAYS,
        BAD_TABLE => &BAD_TABLE_SAYS,
        BAD_OWNER => &BAD_OWNER_SAYS,
        BAD_V2_KEY => &BAD_V2_KEY_SAYS,
        RETIRED => &RETIRED_SAYS,
        _ => &[],
    }
}

// Writes the sentence of a refusal, `done` for 0, and nothing for a number that is none; returns the place after it.
pub fn write_sentence(out: &mut [u8], at: usize, number: u8) -> usize
    requires { at + length (sentence number) ≤ length out.old }
    ensures value { result ≡ at + length (sentence number) }
    ensures out_after { out.new ≡ put out.old at (sentence number) }
{
    write_text(out, at, says(number))
}

// The same from byte 0 on, or 4 where `out` has too little room.
pub fn give_sentence(out: &mut [u8], number: u8) -> Written
    ensures value { result ≡ answer (text (sentence number)) (length out.old) }
    ensures out_after { out.new ≡ left (text (sentence number)) out.old }
{
    give(out, says(number))
}
