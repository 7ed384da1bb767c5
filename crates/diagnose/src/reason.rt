// What is wrong with a component.
ghost use Rattle.std.specs.Prelude.{◌≡◌, ◌+◌, ◌-◌, ◌^◌, ◌<◌, length};
ghost use Rattle.text.specs.Fault.{numeral_place};
ghost use Rattle.path.specs.Kinds.{pair};
ghost use Rattle.diagnose.specs.Diagnosis.{number_why, word_why, length_why, prefix_why, fault_why, name_why, numbers_why, part_why};
ghost use Rattle.diagnose.specs.Table.{part_in};

use crate::Why;
use crate::alike::{agree_front, alike_but, identifier_run};
use crate::shape::{Shape, shape_of};
use identifiers::validate;
use path::name::Name;
use read_pieces::first_dash;
use text::refusal::{BAD_CHAR, BAD_LENGTH, BAD_PREFIX};
use text::{Fault, NumberFault};

// Of a number, whose first byte stands at `at`.
#[tactic(auto, unfolding(crate::specs::Diagnosis::number_why))]
fn number_why(x: Result<u64, NumberFault>, at: usize) -> Why
    requires { at + numeral_place x < 2 ^ 64 }
    ensures { result ≡ number_why at x }
{
    match x {
        Ok(_) => Why {
            reason: 0,
            place: at as u64,
        },
        Err(NumberFault::NoDigits(i)) => Why {
            reason: 13,
            place: (at + i) as u64,
        },
        Err(NumberFault::NotADigit(i)) => Why {
            reason: 14,
            place: (at + i) as u64,
        },
        Err(NumberFault::TooLarge(i)) => Why {
            reason: 15,
            place: (at + i) as u64,
        },
    }
}

// Of a word.
fn word_why(w: &[u8], c: &[u8]) -> Why
    ensures { result ≡ word_why w.now c.now }
{
    let place = agree_front(false, w, c) as u64;
    if alike_but(w, c) {
        return Why { reason: 5, place };
    }
    Why { reason: 6, place }
}

// Of an identifier that is too short, or too long.
fn length_why(least: u64, most: u64, c: &[u8]) -> Why
    ensures { result ≡ length_why least most c.now }
{
    let n = c.len() as u64;
    if n < least {
        return Why {
            reason: 8,
            place: n,
        };
    }
    Why {
        reason: 9,
        place: most,
    }
}

// Of one that does not begin with w and an index without leading zeros.
fn prefix_why(w: &[u8], c: &[u8]) -> Why
    ensures { result ≡ prefix_why w.now c.now }
{
    let n = agree_front(false, w, c);
    if n < w.len() {
        return Why {
            reason: 10,
            place: n as u64,
        };
    }
    Why {
        reason: 11,
        place: n as u64,
    }
}

// Of an identifier, by what its check says.
fn fault_why(fault: Fault, least: u64, most: u64, w: &[u8], c: &[u8]) -> Why
    ensures { result ≡ fault_why fault least most w.now c.now }
{
    let refusal = fault.refusal;
    if refusal == BAD_CHAR {
        return Why {
            reason: 7,
            place: identifier_run(c) as u64,
        };
    }
    if refusal == BAD_LENGTH {
        return length_why(least, most, c);
    }
    if refusal == BAD_PREFIX {
        return prefix_why(w, c);
    }
    Why {
        reason: refusal.saturating_sub(4),
        place: fault.place,
    }
}

// Of an identifier.
fn name_why(name: Name, c: &[u8]) -> Why
    ensures { result ≡ name_why name c.now }
{
    match name {
        Name::Client => {
            let refusal = validate::validate_client_identifier(c);
            fault_why(validate::placeless(refusal), 9, 64, b"", c)
        }
        Name::Connection => {
            let fault = validate::validate_connection_identifier(c);
            fault_why(fault, 10, 64, b"connection-", c)
        }
        Name::Port => {
            let refusal = validate::validate_port_identifier(c);
            fault_why(validate::placeless(refusal), 2, 128, b"", c)
        }
        Name::Channel => {
            let fault = validate::validate_channel_identifier(c);
            fault_why(fault, 8, 64, b"channel-", c)
        }
        Name::Upgrade => Why {
            reason: 0,
            place: 0,
        },
    }
}

// Of R-h with one dash at most behind the first `dash` bytes.
fn numbers_why(c: &[u8], dash: usize) -> Why
    requires { dash < length c.now }
    ensures { result ≡ numbers_why dash c.now }
{
    let number = text::read_number(&c[0..dash]);
    let after = dash + 1;
    if number.is_err() {
        return number_why(number, 0);
    }
    number_why(text::read_number(&c[after..]), after)
}

// Of R-h.
fn pair_why(c: &[u8]) -> Why
    ensures { result ≡ part_why pair c.now }
{
    let dash = first_dash(c);
    if dash == c.len() {
        return Why {
            reason: 12,
            place: c.len() as u64,
        };
    }
    let after = dash + 1;
    let height = &c[after..];
    let second = first_dash(height);
    if second != height.len() {
        return Why {
            reason: 12,
            place: (after + second) as u64,
        };
    }
    numbers_why(c, dash)
}

// Of a component that is not what the part w asks for.
pub(crate) fn part_why(w: &[u8], c: &[u8]) -> Why
    ensures { result ≡ part_why (part_in w.now) c.now }
{
    match shape_of(w) {
        Shape::Word => word_why(w, c),
        Shape::Named(name) => name_why(name, c),
        Shape::Count => number_why(text::read_number(c), 0),
        Shape::Pair => pair_why(c),
    }
}
