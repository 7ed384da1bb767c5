// The checks of identifiers. Each answers a refusal number: 0, 2, 5, 6, 7, 17, 18 or 19. A check that can give one of the
// last three answers its place too.
ghost use Rattle.std.specs.Prelude.{◌≡◌, true, cond, ◌+◌, ◌≤◌, length, drop};
ghost use Rattle.text.specs.Fault.{fault, numeral_place};
ghost use Rattle.text.specs.Number.{numeral_of};
ghost use Rattle.text.specs.Part.{every};
ghost use Rattle.identifiers.specs.Check.{identifier_byte, chars_of, within, index_of, named_of, length_of, prefix_length_of, named_index_fault, index_place, plain, indexed, check_of, fault_of, client, client_type, connection, port, channel};

use crate::alphabet::{Ascii, check_length, check_named_index, check_plain};
use text::Fault;
use text::refusal::{BAD_CHAR, BAD_LENGTH, BAD_PREFIX, NOT_ASCII};

// Which bytes may stand in an identifier, a bit each: of those from 0 to 63 (`#`, `+`, `-`, `.`, digits, `<`, `>`), and of
// those from 64 to 96 (A to Z, `[`, `]`, `_`).
const LOW: u64 = 0x53ff680800000000;

const HIGH: u64 = 0x00000000affffffe;

// Whether the byte may stand in an identifier; lower-case letters are told first, being the most.
pub fn is_identifier_byte(b: u8) -> bool
    ensures { result ≡ identifier_byte b }
{
    if b'`' < b {
        return b < b'{';
    }
    if b < 64 {
        return (LOW >> b) % 2 == 1;
    }
    (HIGH >> (b - 64)) % 2 == 1
}

// v where it is so, and else what is known otherwise.
fn told(so: bool, v: u8, otherwise: u8) -> u8
    ensures { result ≡ cond so v otherwise }
{
    if so { v } else { otherwise }
}

// 0 for the bytes that most identifiers are made of, lower-case letters, digits, `-` and `.`, and 1 for the others.
fn rare(b: u8) -> u8
    ensures { result ≡ 0 → identifier_byte b ≡ true }
{
    let high = told(b < b'{', 0, 1);
    let letter = told(b < b'a', 1, high);
    let digit = told(b < b':', 0, letter);
    let slash = told(b == b'/', 1, digit);
    told(b < b'-', 1, slash)
}

// Whether no byte is rare. The loop has no early exit, so that it can take many bytes at a time.
fn none_rare(s: &[u8]) -> bool
    ensures { result ≡ true → every identifier_byte s.now ≡ true }
{
    let mut most: u8 = 0;
    for b in s {
        most = most.max(rare(*b));
    }
    most == 0
}

// The same of all bytes of a text of sixteen or more, sixteen at a time. The last sixteen may be looked at twice, so that none
// is left over.
fn long_common(id: &[u8]) -> bool
    requires { 16 ≤ length id.now }
    ensures { result ≡ true → every identifier_byte id.now ≡ true }
{
    let last = id.len() - 16;
    for i in (0..last).step_by(16) {
        if !none_rare(&id[i..i + 16]) {
            return false;
        }
    }
    none_rare(&id[last..])
}

// The same of any text: of eight bytes to fifteen the first eight and the last. One of fewer is not looked at.
fn all_common(id: &[u8]) -> bool
    ensures { result ≡ true → every identifier_byte id.now ≡ true }
{
    if id.len() < 8 {
        return false;
    }
    if 16 <= id.len() {
        return long_common(id);
    }
    none_rare(&id[..8]) && none_rare(&id[id.len() - 8..])
}

// Whether the text has only identifier bytes, one at a time.
fn each_identifier(id: &[u8]) -> bool
    ensures { result ≡ every identifier_byte id.now }
{
    id.iter().all(|b| is_identifier_byte(*b))
}

// Whether the text has only identifier bytes; most texts have common ones alone. Where one has another, the whole text tells
// which refusal it is.
pub fn validate_identifier_chars(id: &[u8]) -> u8
    ensures { result ≡ chars_of id.now }
{
    if all_common(id) || each_identifier(id) {
        return 0;
    }
    if text::part::all_ascii(id) {
        return BAD_CHAR;
    }
    NOT_ASCII
}

// Whether a number of bytes lies between two limits.
pub fn length_within(n: u64, least: u64, most: u64) -> u8
    ensures { result ≡ within least most n }
{
    if n < least {
        return BAD_LENGTH;
    }
    if most < n {
        return BAD_LENGTH;
    }
    0
}

// A refusal without a place.
pub fn placeless(refusal: u8) -> Fault
    ensures { result ≡ record { refusal = refusal; place = 0 } }
{
    Fault { refusal, place: 0 }
}

// Whether the text is an index from `start` on: a number text that does not begin with `0` unless it is `0` itself.
fn check_index(id: &[u8], start: usize) -> Fault
    requires { start ≤ length id.now }
    ensures { result ≡ fault (index_of (drop start id.now)) (start + numeral_place (numeral_of (drop start id.now))) }
{
    let index = &id[start..];
    if 1 < index.len() {
        if index[0] == b'0' {
            return placeless(BAD_PREFIX);
        }
    }
    text::numeral_fault(text::read_number(index), start)
}

// Whether the text is the name, `-` and an index.
pub fn check_named(id: &[u8], name: &[u8]) -> Fault
    ensures { result ≡ fault (named_of name.now id.now) (index_place name.now id.now) }
{
    if !text::part::same_at(id, 0, name) {
        return placeless(BAD_PREFIX);
    }
    let at = name.len();
    if id.len() <= at {
        return placeless(BAD_PREFIX);
    }
    if id[at] != b'-' {
        return placeless(BAD_PREFIX);
    }
    check_index(id, at + 1)
}

// Whether the text has at least `min` bytes, and at least one, and at most `max`.
pub fn validate_identifier_length(id: &[u8], min: u64, max: u64) -> u8
    ensures { result ≡ length_of id.now min max }
{
    check_length::<Ascii>(id, min, max)
}

// Whether the text can stand in front of `-` and every index, in an identifier of at least and at most so many bytes.
pub fn validate_prefix_length(prefix: &[u8], min: u64, max: u64) -> u8
    ensures { result ≡ prefix_length_of prefix.now min max }
{
    validate_identifier_length(prefix, min.saturating_sub(2), max.saturating_sub(21))
}

// Whether the text is `{name}-{index}`.
pub fn validate_named_u64_index(id: &[u8], name: &[u8]) -> Fault
    ensures { result ≡ named_index_fault id.now name.now }
{
    check_named_index::<Ascii>(id, name)
}

// Characters and length, then the name and an index. A text that is the name and an index has only identifier bytes, so that no more than its
// length is left to check.
fn check_indexed(id: &[u8], least: u64, most: u64, name: &[u8]) -> Fault
    requires { every identifier_byte name.now ≡ true }
    ensures { result ≡ fault_of (record { least = least; most = most; form = indexed name.now }) id.now }
{
    let named = check_named(id, name);
    if named.refusal == 0 {
        return placeless(length_within(id.len() as u64, least, most));
    }
    let plain = check_plain::<Ascii>(id, least, most);
    if plain != 0 {
        return placeless(plain);
    }
    named
}

// The identifiers: least and most bytes, and the name before an index.
pub fn validate_client_type(id: &[u8]) -> u8
    ensures { result ≡ check_of client_type id.now }
{
    check_plain::<Ascii>(id, 7, 43)
}

pub fn validate_client_identifier(id: &[u8]) -> u8
    ensures { result ≡ check_of client id.now }
{
    check_plain::<Ascii>(id, 9, 64)
}

pub fn validate_connection_identifier(id: &[u8]) -> Fault
    ensures { result ≡ fault_of connection id.now }
{
    check_indexed(id, 10, 64, b"connection")
}

pub fn validate_port_identifier(id: &[u8]) -> u8
    ensures { result ≡ check_of port id.now }
{
    check_plain::<Ascii>(id, 2, 128)
}

pub fn validate_channel_identifier(id: &[u8]) -> Fault
    ensures { result ≡ fault_of channel id.now }
{
    check_indexed(id, 8, 64, b"channel")
}
