// Number texts, parts of a text, and the writing of texts into a lent buffer.
#![tactic(auto)]

pub mod part;
pub mod put;
pub mod refusal;

ghost use Rattle.std.specs.Prelude.{◌≡◌, true, false, ◌+◌, ◌*◌, ◌^◌, ◌≤◌, ◌<◌, length, drop};
ghost use Rattle.text.specs.Number.{numeral_of, digits_at, width, digits, decimal, big_endian, big_at};
ghost use Rattle.text.specs.Fault.{fault, numeral_fault, numeral_place};
ghost use Rattle.text.specs.Put.{put};

use crate::refusal::{NO_DIGITS, NOT_A_DIGIT, TOO_LARGE};

// Why a text is no number, with the place of the fault in the text.
#[derive(Clone, Copy)]
pub enum NumberFault {
    NoDigits(usize),
    NotADigit(usize),
    TooLarge(usize),
}

// What a call that writes answers: a refusal number, 0 where it is done, and how many bytes were written.
#[repr(C)]
#[derive(Clone, Copy)]
pub struct Written {
    pub refusal: u8,
    pub length: u64,
}

// What a check answers: a refusal number, 0 where there is none, and where the fault stands. Only a number's faults have a
// place; of all else it is 0.
#[repr(C)]
#[derive(Clone, Copy)]
pub struct Fault {
    pub refusal: u8,
    pub place: u64,
}

// Whether v with the digit d after it is more than a u64 has. Most numbers are told by the first test.
pub fn over(v: u64, d: u64) -> bool
    requires { d < 10 }
    ensures { (result ≡ true → 18446744073709551615 < v * 10 + d) × (result ≡ false → v * 10 + d ≤ 18446744073709551615) }
{
    if v < 1844674407370955161 {
        return false;
    }
    if 1844674407370955161 < v {
        return true;
    }
    5 < d
}

// Reads the digits from `start` to the end of `s`: one or more.
fn digits_at(s: &[u8], start: usize) -> Result<u64, NumberFault>
    requires { start ≤ length s.now }
    ensures { result ≡ digits_at start (drop start s.now) }
{
    if start == s.len() {
        return Err(NumberFault::NoDigits(start));
    }
    let mut v: u64 = 0;
    for i in start..s.len() {
        let b = s[i];
        if !b.is_ascii_digit() {
            return Err(NumberFault::NotADigit(i));
        }
        let d = u64::from(b - b'0');
        if over(v, d) {
            return Err(NumberFault::TooLarge(i));
        }
        v = v * 10 + d;
    }
    Ok(v)
}

// Reads a number: an optional `+`, then one digit or more. The leftmost fault decides.
pub fn read_number(s: &[u8]) -> Result<u64, NumberFault>
    ensures { result ≡ numeral_of s.now }
{
    if s.len() == 0 {
        return Err(NumberFault::NoDigits(0));
    }
    if s[0] == 43 {
        digits_at(s, 1)
    } else {
        digits_at(s, 0)
    }
}

// What is wrong with a number text whose first byte stands at `at`.
pub fn numeral_fault(n: Result<u64, NumberFault>, at: usize) -> Fault
    requires { at + numeral_place n < 2 ^ 64 }
    ensures { result ≡ fault (numeral_fault n) (at + numeral_place n) }
{
    match n {
        Ok(_) => Fault {
            refusal: 0,
            place: 0,
        },
        Err(NumberFault::NoDigits(i)) => Fault {
            refusal: NO_DIGITS,
            place: (at + i) as u64,
        },
        Err(NumberFault::NotADigit(i)) => Fault {
            refusal: NOT_A_DIGIT,
            place: (at + i) as u64,
        },
        Err(NumberFault::TooLarge(i)) => Fault {
            refusal: TOO_LARGE,
            place: (at + i) as u64,
        },
    }
}

// A number of digits, and the least number that has one digit more.
#[derive(Clone, Copy)]
struct Band {
    digits: usize,
    unit: u64,
}

// The multiple of four digits below those of n.
fn band_of(n: u64) -> Band
    requires { 10 ≤ n }
    ensures unit_value { (result.unit ≡ 10 ^ result.digits) × (result.digits ≤ 16) × (result.unit ≤ 10000000000000000) }
    ensures unit_le_n { (result.unit ≤ n) × (n < result.unit * 10000) }
{
    if n < 10000 {
        return Band { digits: 0, unit: 1 };
    }
    if n < 100000000 {
        return Band {
            digits: 4,
            unit: 10000,
        };
    }
    if n < 1000000000000 {
        return Band {
            digits: 8,
            unit: 100000000,
        };
    }
    if n < 10000000000000000 {
        return Band {
            digits: 12,
            unit: 1000000000000,
        };
    }
    Band {
        digits: 16,
        unit: 10000000000000000,
    }
}

// How many decimal digits n has, one to four more than k; `unit` is the least number of k + 1 digits.
fn width_from(n: u64, k: usize, unit: u64) -> usize
    requires unit_value { (unit ≡ 10 ^ k) × (k ≤ 16) × (unit ≤ 10000000000000000) }
    requires unit_le_n { (unit ≤ n) × (n < unit * 10000) }
    ensures { result ≡ width n }
{
    if n < unit * 100 {
        if n < unit * 10 {
            return k + 1;
        }
        return k + 2;
    }
    if n < unit * 1000 {
        return k + 3;
    }
    k + 4
}

// How many decimal digits n has. It is compared with powers of ten, and never divided.
pub fn number_width(n: u64) -> usize
    ensures { result ≡ width n }
{
    if n < 10 {
        return 1;
    }
    let band = band_of(n);
    width_from(n, band.digits, band.unit)
}

// Writes the two digits of r from out[at] on. They are made as one number, low byte first, so that they are one store; 12336
// is `00`.
fn write_pair(out: &mut [u8], at: usize, r: u64) -> usize
    requires { (r < 100) × (at + 2 ≤ length out.old) }
    ensures value { result ≡ at + 2 }
    ensures out_after { out.new ≡ put out.old at (digits 2 r) }
{
    let both = 12336 + r / 10 + r % 10 * 256;
    let next = put::write_byte(out, at, (both % 256) as u8);
    put::write_byte(out, next, (both / 256) as u8)
}

// The same of four digits.
fn write_four(out: &mut [u8], at: usize, r: u64) -> usize
    requires { (r < 10000) × (at + 4 ≤ length out.old) }
    ensures value { result ≡ at + 4 }
    ensures out_after { out.new ≡ put out.old at (digits 4 r) }
{
    let next = write_pair(out, at, r / 100);
    write_pair(out, next, r % 100)
}

// The same of eight digits.
fn write_eight(out: &mut [u8], at: usize, r: u64) -> usize
    requires { (r < 100000000) × (at + 8 ≤ length out.old) }
    ensures value { result ≡ at + 8 }
    ensures out_after { out.new ≡ put out.old at (digits 8 r) }
{
    let next = write_four(out, at, r / 10000);
    write_four(out, next, r % 10000)
}

// The same of sixteen digits.
fn write_sixteen(out: &mut [u8], at: usize, r: u64) -> usize
    requires { (r < 10000000000000000) × (at + 16 ≤ length out.old) }
    ensures value { result ≡ at + 16 }
    ensures out_after { out.new ≡ put out.old at (digits 16 r) }
{
    let next = write_eight(out, at, r / 100000000);
    write_eight(out, next, r % 100000000)
}

// Writes a number of one digit or two.
fn write_first(out: &mut [u8], at: usize, n: u64) -> usize
    requires { (n < 100) × (at + length (decimal n) ≤ length out.old) }
    ensures value { result ≡ at + length (decimal n) }
    ensures out_after { out.new ≡ put out.old at (decimal n) }
{
    if n < 10 {
        return put::write_byte(out, at, 48 + n as u8);
    }
    write_pair(out, at, n)
}

// Writes a number of one digit to four, the part of it that is higher first.
fn write_few(out: &mut [u8], at: usize, n: u64) -> usize
    requires { (n < 10000) × (at + length (decimal n) ≤ length out.old) }
    ensures value { result ≡ at + length (decimal n) }
    ensures out_after { out.new ≡ put out.old at (decimal n) }
{
    if n < 100 {
        return write_first(out, at, n);
    }
    let next = write_first(out, at, n / 100);
    write_pair(out, next, n % 100)
}

// The same of one digit to eight.
fn write_more(out: &mut [u8], at: usize, n: u64) -> usize
    requires { (n < 100000000) × (at + length (decimal n) ≤ length out.old) }
    ensures value { result ≡ at + length (decimal n) }
    ensures out_after { out.new ≡ put out.old at (decimal n) }
{
    if n < 10000 {
        return write_few(out, at, n);
    }
    let next = write_few(out, at, n / 10000);
    write_four(out, next, n % 10000)
}

// The same of nine digits to sixteen, whose higher part has eight at most.
fn write_long(out: &mut [u8], at: usize, n: u64) -> usize
    requires { (100000000 ≤ n) × (n < 10000000000000000) × (at + length (decimal n) ≤ length out.old) }
    ensures value { result ≡ at + length (decimal n) }
    ensures out_after { out.new ≡ put out.old at (decimal n) }
{
    let next = write_more(out, at, n / 100000000);
    write_eight(out, next, n % 100000000)
}

// Writes the decimal digits of n from out[at] on, those of its highest part first, and returns the place after them: how many
// there are is known only when they are written.
pub fn write_number(out: &mut [u8], at: usize, n: u64) -> usize
    requires { at + length (decimal n) ≤ length out.old }
    ensures value { result ≡ at + length (decimal n) }
    ensures out_after { out.new ≡ put out.old at (decimal n) }
{
    if n < 100000000 {
        return write_more(out, at, n);
    }
    if n < 10000000000000000 {
        return write_long(out, at, n);
    }
    let next = write_few(out, at, n / 10000000000000000);
    write_sixteen(out, next, n % 10000000000000000)
}

// Writes `width` bytes of v from out[at] on, high byte first, and returns the place after them. Eight are copied as a whole,
// which is one store.
pub fn write_big_endian(out: &mut [u8], at: usize, v: u64, width: usize) -> usize
    requires { at + width ≤ length out.old }
    ensures value { result ≡ at + width }
    ensures out_after { out.new ≡ put out.old at (big_endian width v) }
{
    if width == 8 {
        return put::write_text(out, at, &v.to_be_bytes());
    }
    let mut m = v;
    for j in (0..width).rev() {
        out[at + j] = (m % 256) as u8;
        m = m / 256;
    }
    at + width
}

// The number that `width` bytes from s[at] on are, high byte first.
pub fn read_big_endian(s: &[u8], at: usize, width: usize) -> u64
    requires { (at + width ≤ length s.now) × (width ≤ 8) }
    ensures { result ≡ big_at at width s.now }
{
    let mut v: u64 = 0;
    for b in &s[at..at + width] {
        v = v * 256 + u64::from(*b);
    }
    v
}
