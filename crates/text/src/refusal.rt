// The refusals of the whole library, each by its name and number, with the sentence that tells whoever asked what was wrong
// and what to do about it. 0 is no refusal, and 8 is given no more: 17 to 19 stand in its place. `bin/interface` makes of
// this file what the header and the Rust crate say of a refusal.

pub const DONE: u8 = 0;

pub const DONE_SAYS: [u8; 4] = *b"done";

pub const TOO_LONG: u8 = 1;

pub const TOO_LONG_SAYS: [u8; 74] =
    *b"the text, or the path that it makes, has more than 4,096 bytes: shorten it";

pub const NOT_ASCII: u8 = 2;

pub const NOT_ASCII_SAYS: [u8; 64] =
    *b"a byte of the text is 128 or more: write the text in ASCII alone";

pub const NOT_A_PATH: u8 = 3;

pub const NOT_A_PATH_SAYS: [u8; 103] =
    *b"the text fits none of the nineteen kinds of path: hold its words and numbers against the table of kinds";

pub const NO_ROOM: u8 = 4;

pub const NO_ROOM_SAYS: [u8; 102] =
    *b"the lent buffer is too short, or not of the size that a converted book has: lend one of the right size";

pub const BAD_CHAR: u8 = 5;

pub const BAD_CHAR_SAYS: [u8; 97] =
    *b"a byte is none of A-Z, a-z, 0-9 and . _ + - # [ ] < >, which identifiers are made of: take it out";

pub const BAD_LENGTH: u8 = 6;

pub const BAD_LENGTH_SAYS: [u8; 109] =
    *b"the identifier is too short or too long, or the value is empty or over 64 bytes: give one of the right length";

pub const BAD_PREFIX: u8 = 7;

pub const BAD_PREFIX_SAYS: [u8; 99] =
    *b"the identifier is not its name, a dash and a number without leading zeros: write it as in channel-7";

pub const BAD_BOOK: u8 = 9;

pub const BAD_BOOK_SAYS: [u8; 106] =
    *b"the buffer holds no book of the version that the call takes: make a new one in it, or convert an older one";

pub const KEY_TOO_LONG: u8 = 10;

pub const KEY_TOO_LONG_SAYS: [u8; 86] =
    *b"the path's key has more than the 255 bytes that a book keeps: shorten its upgrade path";

pub const FULL: u8 = 11;

pub const FULL_SAYS: [u8; 108] =
    *b"the quota has no room for another record, or the book for such quotas: remove a record, or take other quotas";

pub const ABSENT: u8 = 12;

pub const ABSENT_SAYS: [u8; 119] =
    *b"the book holds no such record, or the block no such key: ask for the key of the text to see which record was looked for";

pub const BAD_SEGMENT: u8 = 13;

pub const BAD_SEGMENT_SAYS: [u8; 76] =
    *b"the upgrade path has a slash: give it as one piece, such as upgradedIBCState";

pub const BAD_KIND: u8 = 14;

pub const BAD_KIND_SAYS: [u8; 70] =
    *b"the kind is not a number from 1 to 19: take it from the table of kinds";

pub const BAD_ITER_KEY: u8 = 15;

pub const BAD_ITER_KEY_SAYS: [u8; 93] =
    *b"the bytes are not iterateConsensusStates and 16 more, 38 in all: give one whole iteration key";

pub const BAD_BLOCK: u8 = 16;

pub const BAD_BLOCK_SAYS: [u8; 111] =
    *b"the block is not whole iteration keys that rise, no two the same: put them in order and take out what is no key";

pub const NO_DIGITS: u8 = 17;

pub const NO_DIGITS_SAYS: [u8; 88] =
    *b"where a number should stand there is no digit: write one, from 0 to 18446744073709551615";

pub const NOT_A_DIGIT: u8 = 18;

pub const NOT_A_DIGIT_SAYS: [u8; 69] =
    *b"a byte of the number is no digit: write it in the digits 0 to 9 alone";

pub const TOO_LARGE: u8 = 19;

pub const TOO_LARGE_SAYS: [u8; 61] =
    *b"the number is above 18446744073709551615: write a smaller one";

pub const LOOSE: u8 = 20;

pub const LOOSE_SAYS: [u8; 114] =
    *b"a number of the text has a plus or leading zeros, so it is not its own key: give its key, or make the lenient call";

pub const BAD_UTF8: u8 = 21;

pub const BAD_UTF8_SAYS: [u8; 76] =
    *b"the text is no UTF-8: give it as UTF-8 without overlong forms and surrogates";

pub const BAD_TABLE: u8 = 22;

pub const BAD_TABLE_SAYS: [u8; 84] =
    *b"the table is not the 512 numbers that filling it from this book gives: fill it again";

pub const BAD_OWNER: u8 = 23;

pub const BAD_OWNER_SAYS: [u8; 87] =
    *b"the owner is neither 1 nor 2: give the number of the network that the record belongs to";

pub const BAD_V2_KEY: u8 = 24;

pub const BAD_V2_KEY_SAYS: [u8; 118] =
    *b"the bytes are not a client, a marker of 1, 2 or 3 and 8 more, or the kind is not one of these: give a whole packet key";

pub const RETIRED: u8 = 25;

pub const RETIRED_SAYS: [u8; 123] =
    *b"the path is of kind 8, which is written to books no more: derive a client's connections, and look up or remove such records";
