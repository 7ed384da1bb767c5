// The checks of identifiers. Each answers as the plain one does, with 21 in the place of 2.
ghost use Rattle.std.specs.Prelude.{◌≡◌, refl};
ghost use Rattle.text.specs.Refusal.{bad_utf8};
ghost use Rattle.identifiers.specs.Check.{indexed, client, client_type, connection, port, channel};
ghost use Rattle.letters.specs.Character.{utf8};
ghost use Rattle.wide.specs.Mode.{wide};
ghost use Rattle.wide.specs.Check.{chars_in, length_in, prefix_length_in, named_index_fault_in, check_in, fault_in};

use identifiers::alphabet::{Alphabet, check_length, check_named_index, check_plain};
use identifiers::validate;
use identifiers::validate::{check_named, placeless};
use text::Fault;
use text::refusal::BAD_UTF8;

// Letters and numbers of any script.
pub struct Unicode {}

impl Alphabet for Unicode {
    ghost taken = { utf8 };

    ghost other = { bad_utf8 };

    ghost characters = { chars_in wide };

    ghost refuses = { refl };

    ghost placeless = { refl };

    fn takes(s: &[u8]) -> bool {
        letters::is_utf8(s)
    }

    fn other() -> u8 {
        BAD_UTF8
    }

    fn check_characters(s: &[u8]) -> u8 {
        validate_identifier_chars(s)
    }
}

// Whether each character is a letter, a number or one of `. _ + - # [ ] < >`.
pub fn validate_identifier_chars(id: &[u8]) -> u8
    ensures { result ≡ chars_in wide id.now }
{
    letters::check::wide_chars(id)
}

// Whether the text has at least `min` bytes, and at least one, and at most `max`.
pub fn validate_identifier_length(id: &[u8], min: u64, max: u64) -> u8
    ensures { result ≡ length_in wide id.now min max }
{
    check_length::<Unicode>(id, min, max)
}

// Whether the text can stand in front of `-` and every index, in an identifier of at least and at most so many bytes.
pub fn validate_prefix_length(prefix: &[u8], min: u64, max: u64) -> u8
    ensures { result ≡ prefix_length_in wide prefix.now min max }
{
    validate_identifier_length(prefix, min.saturating_sub(2), max.saturating_sub(21))
}

// Whether the text is `{name}-{index}`.
pub fn validate_named_u64_index(id: &[u8], name: &[u8]) -> Fault
    ensures { result ≡ named_index_fault_in wide id.now name.now }
{
    check_named_index::<Unicode>(id, name)
}

// Characters and length, then the name and an index.
fn check_indexed(id: &[u8], least: u64, most: u64, name: &[u8]) -> Fault
    ensures { result ≡ fault_in wide (record { least = least; most = most; form = indexed name.now }) id.now }
{
    let plain = check_plain::<Unicode>(id, least, most);
    if plain != 0 {
        return placeless(plain);
    }
    check_named(id, name)
}

// The identifiers: least and most bytes, and the name before an index. A text that is ASCII has the plain check, of which
// those with an index go by the name first.
pub fn validate_client_type(id: &[u8]) -> u8
    ensures { result ≡ check_in wide client_type id.now }
{
    check_plain::<Unicode>(id, 7, 43)
}

pub fn validate_client_identifier(id: &[u8]) -> u8
    ensures { result ≡ check_in wide client id.now }
{
    check_plain::<Unicode>(id, 9, 64)
}

pub fn validate_connection_identifier(id: &[u8]) -> Fault
    ensures { result ≡ fault_in wide connection id.now }
{
    if text::part::all_ascii(id) {
        return validate::validate_connection_identifier(id);
    }
    check_indexed(id, 10, 64, b"connection")
}

pub fn validate_port_identifier(id: &[u8]) -> u8
    ensures { result ≡ check_in wide port id.now }
{
    check_plain::<Unicode>(id, 2, 128)
}

pub fn validate_channel_identifier(id: &[u8]) -> Fault
    ensures { result ≡ fault_in wide channel id.now }
{
    if text::part::all_ascii(id) {
        return validate::validate_channel_identifier(id);
    }
    check_indexed(id, 8, 64, b"channel")
}
