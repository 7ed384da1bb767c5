// Why no kind fits a text: where a kind fits it but for a number, the first number that is none, and where.
#![tactic(auto)]

ghost use Rattle.std.specs.Prelude.{◌≡◌, ◌∷◌, [], ◌+◌, ◌^◌, ◌<◌, length};
ghost use Rattle.text.specs.Number.{numeral_of};
ghost use Rattle.path.specs.Kinds.{count, pair, kind5, kind6, kind7, kind15, kind16, kind17, kind18, kind19};
ghost use Rattle.path.specs.Read.{all_from, suits, numeral_faults, part_faults, why_not};
ghost use Rattle.path.specs.Text.{component, place_at};
ghost use Rattle.read_pieces.specs.Pieces.{consensus_parts, packet_parts};
ghost use Rattle.read_faults.specs.Fault.{shown_first, or_fault, some_suits};

use path::Refusal;
use path::name::{Name, name_fault};
use read_pieces::cutter::CutText;
use read_pieces::{first_dash, read_client, read_ends};
use text::NumberFault;

// What is wrong with the number text s, whose first byte stands at `at`.
fn fault_at(s: &[u8], at: usize) -> Refusal
    requires { at + length s.now < 2 ^ 64 }
    ensures { result ≡ shown_first (numeral_faults at (numeral_of s.now)) }
{
    match text::read_number(s) {
        Ok(_) => Refusal::NotAPath,
        Err(NumberFault::NoDigits(i)) => Refusal::NoDigits(at + i),
        Err(NumberFault::NotADigit(i)) => Refusal::NotADigit(at + i),
        Err(NumberFault::TooLarge(i)) => Refusal::TooLarge(at + i),
    }
}

// The first of two faults.
fn or_fault(first: Refusal, second: Refusal) -> Refusal
    ensures { result ≡ or_fault first second }
{
    let Refusal::NotAPath = first else {
        return first;
    };
    second
}

// The same of R-h: nothing where it has not exactly one dash.
fn pair_fault_at(s: &[u8], at: usize) -> Refusal
    requires { at + length s.now < 2 ^ 64 }
    ensures { result ≡ shown_first (part_faults pair at s.now) }
{
    let dash = first_dash(s);
    if dash == s.len() {
        return Refusal::NotAPath;
    }
    let after = dash + 1;
    let height = &s[after..];
    if first_dash(height) != height.len() {
        return Refusal::NotAPath;
    }
    let number = fault_at(&s[0..dash], at);
    or_fault(number, fault_at(height, at + after))
}

// What is wrong with S or n at component k.
fn count_fault(text: CutText, k: usize) -> Refusal
    requires { (k < text.cut.count) × (text.cut.count < 8) }
    ensures { result ≡ shown_first (part_faults count (place_at text.entry.text.now k).start (component text.entry.text.now k)) }
{
    let place = text.place(k);
    fault_at(text.component(k), place.start)
}

// What is wrong with R-h at component k.
fn pair_fault(text: CutText, k: usize) -> Refusal
    requires { (k < text.cut.count) × (text.cut.count < 8) }
    ensures { result ≡ shown_first (part_faults pair (place_at text.entry.text.now k).start (component text.entry.text.now k)) }
{
    let place = text.place(k);
    pair_fault_at(text.component(k), place.start)
}

// `clients/C/consensusStates/` at the start.
fn suits_consensus(text: CutText) -> bool
    requires { (3 < text.cut.count) × (text.cut.count < 8) }
    ensures { result ≡ all_from suits 0 consensus_parts text.entry.text.now }
{
    read_client(text, 0).is_some() && text.is_word(2, b"consensusStates")
}

// `processedTime` or `processedHeight` behind that.
fn suits_updates(text: CutText) -> bool
    requires { text.cut.count ≡ 5 }
    ensures { result ≡ some_suits (kind6 ∷ kind7 ∷ []) text.entry.text.now }
{
    if !suits_consensus(text) {
        return false;
    }
    if text.is_word(4, b"processedTime") {
        return true;
    }
    text.is_word(4, b"processedHeight")
}

// `ports/P/channels/H/sequences/` after the first component.
fn suits_packet(text: CutText) -> bool
    requires { (6 < text.cut.count) × (text.cut.count < 8) }
    ensures { result ≡ all_from suits 1 packet_parts text.entry.text.now }
{
    read_ends(text).is_some() && text.is_word(5, b"sequences")
}

// `commitments`, `acks` or `receipts` before that.
fn suits_packets(text: CutText) -> bool
    requires { text.cut.count ≡ 7 }
    ensures { result ≡ some_suits (kind15 ∷ kind16 ∷ kind17 ∷ []) text.entry.text.now }
{
    if !suits_packet(text) {
        return false;
    }
    if text.is_word(0, b"commitments") {
        return true;
    }
    if text.is_word(0, b"acks") {
        return true;
    }
    text.is_word(0, b"receipts")
}

// U, and `upgradedClient` or `upgradedConsState` after the number.
fn suits_upgrades(text: CutText) -> bool
    requires { text.cut.count ≡ 3 }
    ensures { result ≡ some_suits (kind18 ∷ kind19 ∷ []) text.entry.text.now }
{
    if name_fault(Name::Upgrade, text.component(0)) != 0 {
        return false;
    }
    if text.is_word(2, b"upgradedClient") {
        return true;
    }
    text.is_word(2, b"upgradedConsState")
}

// Why no kind fits the text. The kinds that have a number and as many components as the text have it in one place.
fn why_not(text: CutText) -> Refusal
    ensures { result ≡ why_not text.entry.text.now }
{
    let count = text.cut.count;
    if count == 3 {
        if suits_upgrades(text) {
            return count_fault(text, 1);
        }
        return Refusal::NotAPath;
    }
    if count == 4 {
        if suits_consensus(text) {
            return pair_fault(text, 3);
        }
        return Refusal::NotAPath;
    }
    if count == 5 {
        if suits_updates(text) {
            return pair_fault(text, 3);
        }
        return Refusal::NotAPath;
    }
    if count == 7 {
        if suits_packets(text) {
            return count_fault(text, 6);
        }
    }
    Refusal::NotAPath
}

// Why a text is none of the kinds: its first bad number, where every other part of a kind fits.
pub fn number_fault(text: &[u8]) -> Refusal
    ensures { result ≡ why_not text.now }
{
    why_not(CutText::new(text))
}
