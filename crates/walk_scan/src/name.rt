// The identifier at a place of a text.
ghost use Rattle.std.specs.Prelude.{◌≡◌, ◌&&◌, ◌+◌, ◌≤◌, ◌<◌, eqb, ltb, length, drop, get_or, IfSome};
ghost use Rattle.identifiers.specs.Check.{identifier_byte, plain, channel, connection};
ghost use Rattle.walk_scan.specs.Index.{Index};
ghost use Rattle.walk_scan.specs.Number.{no_slash};
ghost use Rattle.walk_scan.specs.Run.{run, nonzero, rule_run, name_run};

use crate::number::number;
use crate::word::{word8, word16};
use identifiers::validate::is_identifier_byte;
use path::name::{Name, name_fault};
use text::part::eight;

// Where the identifier bytes from `at` on end.
fn identifier_end(s: &[u8], at: usize) -> usize
    requires { at ≤ length s.now }
    ensures { (at ≤ result) × (result ≤ length s.now) × (result ≡ at + run identifier_byte (drop at s.now)) }
{
    for i in at..s.len() {
        if !is_identifier_byte(s[i]) {
            return i;
        }
    }
    s.len()
}

// How long the client or the port at `at` is: none where there is none.
pub fn plain_length(s: &[u8], at: usize, least: usize, most: usize) -> Option<usize>
    requires { at ≤ length s.now }
    ensures { IfSome result (λ n. at + n ≤ length s.now) × (result ≡ nonzero (rule_run (record { least = least; most = most; form = plain }) (drop at s.now))) }
{
    let n = identifier_end(s, at) - at;
    if n == 0 || n < least || most < n {
        return None;
    }
    Some(n)
}

// Whether the n bytes at d have a zero before others.
fn zero_first(s: &[u8], d: usize, n: usize) -> bool
    requires { d + n ≤ length s.now }
    ensures { result ≡ (ltb 1 n && eqb (get_or s.now d 0) 48) }
{
    1 < n && s[d] == 48
}

// Where the index at d ends, read at its own place up to the end of its component: none where that does not tell. One of
// more than 53 bytes is left to the check, since with `connection-` before it an identifier passes its 64.
fn index_end(s: &[u8], d: usize) -> Option<usize>
    requires { d ≤ length s.now }
    ensures { IfSome result (λ e. (e ≤ length s.now) × Index s.now d e) }
{
    let e = number(s, d)?.end;
    if 53 < e - d || zero_first(s, d, e - d) {
        return None;
    }
    if e == s.len() || s[e] == b'/' {
        return Some(e);
    }
    None
}

// How long the identifier at `at` is, by its check.
fn checked(s: &[u8], at: usize, name: Name) -> Option<usize>
    requires { at ≤ length s.now }
    ensures { IfSome result (λ n. at + n ≤ length s.now) × (result ≡ nonzero (name_run name (drop at s.now))) }
{
    let end = identifier_end(s, at);
    if end == at || name_fault(name, &s[at..end]) != 0 {
        return None;
    }
    Some(end - at)
}

// How long the channel at `at` is: none where there is none.
pub fn channel_length(s: &[u8], at: usize) -> Option<usize>
    requires { at ≤ length s.now }
    ensures { IfSome result (λ n. at + n ≤ length s.now) × (result ≡ nonzero (rule_run channel (drop at s.now))) }
{
    if word8(s, at, b"channel-") {
        if let Some(e) = index_end(s, at + 8) {
            return Some(e - at);
        }
    }
    checked(s, at, Name::Channel)
}

// How long the connection at `at` is: none where there is none.
pub fn connection_length(s: &[u8], at: usize) -> Option<usize>
    requires { at ≤ length s.now }
    ensures { IfSome result (λ n. at + n ≤ length s.now) × (result ≡ nonzero (rule_run connection (drop at s.now))) }
{
    if word16(s, at, 11, eight(b"connecti", 0), eight(b"nection-", 0)) {
        if let Some(e) = index_end(s, at + 11) {
            return Some(e - at);
        }
    }
    checked(s, at, Name::Connection)
}

// Where the first slash from `at` on stands, or the end.
pub fn slash(s: &[u8], at: usize) -> usize
    requires { at ≤ length s.now }
    ensures { (at ≤ result) × (result ≤ length s.now) × (result ≡ at + run no_slash (drop at s.now)) }
{
    for i in at..s.len() {
        if s[i] == b'/' {
            return i;
        }
    }
    s.len()
}
