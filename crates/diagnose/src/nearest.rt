// The kind that a text comes nearest to.
ghost use Rattle.std.specs.Prelude.{◌≡◌, ◌≤◌, ◌<◌, length, drop};
ghost use Rattle.path.specs.Read.{parts_of};
ghost use Rattle.diagnose.specs.Diagnosis.{along, letters, placed, score, nearest, front, seven, how_many};
ghost use Rattle.diagnose.specs.Table.{parts_in, table, kind_text};

use crate::pieces::{piece_at, seen_of};
use crate::shape::{fits_part, letters_of, word_stands};
use read_pieces::cutter::CutText;

// Where each kind starts in the text of them, and one place more.
const STARTS: [usize; 20] = [
    0, 19, 42, 62, 84, 114, 158, 204, 226, 240, 248, 279, 315, 351, 386, 429, 465, 505, 524, 546,
];

// Kind k as it is written.
pub(crate) fn kind_at(kinds: &[u8], k: u8) -> &[u8]
    requires { (kinds.now ≡ table) × (1 ≤ k) × (k ≤ 19) }
    ensures { result.now ≡ kind_text k }
{
    let row = STARTS;
    let from = row[(k - 1) as usize];
    let next = row[k as usize];
    &kinds[from..next - 1]
}

// The letters of the parts from the i-th on with the components from the j-th on, the first counted `times` times.
fn letters_along(text: CutText, from: usize, kind: CutText, at: usize, times: u64) -> u64
    requires { (length kind.text.now ≤ 64) × (times ≤ 2) × (from ≤ 7) × (at ≤ 7) }
    ensures { result ≡ along times (drop at (parts_in kind.entry.text.now)) (drop from (seven text.entry.text.now)) }
{
    let parts = seen_of(kind).saturating_sub(at);
    let seen = seen_of(text).saturating_sub(from);
    let mut sum: u64 = 0;
    let mut n = times;
    for k in 0..parts.min(seen) {
        let w = piece_at(kind, at + k);
        sum += n * (letters_of(w, piece_at(text, from + k)) as u64);
        n = 1;
    }
    sum
}

// The most letters, however far the text is moved.
fn most_letters(text: CutText, kind: CutText) -> u64
    requires { length kind.text.now ≤ 64 }
    ensures { result ≡ letters (parts_in kind.entry.text.now) (seven text.entry.text.now) }
{
    let mut best: u64 = 0;
    for d in 0..7 {
        let later = letters_along(text, d, kind, 0, 2);
        let cut_short = letters_along(text, 0, kind, d, 1);
        best = best.max(later.max(cut_short));
    }
    best
}

// Whether each word stands in its place but for letter case.
fn all_placed(text: CutText, kind: CutText) -> bool
    ensures { result ≡ placed (parts_in kind.entry.text.now) (seven text.entry.text.now) }
{
    let n = seen_of(kind).min(seen_of(text));
    for i in 0..n {
        if !word_stands(piece_at(kind, i), piece_at(text, i)) {
            return false;
        }
    }
    true
}

// The score of a kind.
fn score_of(text: CutText, kind: CutText) -> u64
    requires { length kind.text.now ≤ 64 }
    ensures { result ≡ score (how_many text.entry.text.now) (parts_in kind.entry.text.now) (seven text.entry.text.now) }
{
    let count = text.cut.count;
    if count != seen_of(kind) {
        return most_letters(text, kind);
    }
    if all_placed(text, kind) {
        return 1000;
    }
    most_letters(text, kind)
}

// The kind with the highest score, 0 where no kind has five letters.
pub(crate) fn nearest_kind(text: CutText, kinds: &[u8]) -> u8
    requires { kinds.now ≡ table }
    ensures { result ≡ nearest (how_many text.entry.text.now) (seven text.entry.text.now) }
{
    let mut kind: u8 = 0;
    let mut best: u64 = 4;
    for k in 1..20 {
        let s = score_of(text, CutText::new(kind_at(kinds, k)));
        if best < s {
            kind = k;
            best = s;
        }
    }
    kind
}

// How many components fit the parts of a kind, from the front on.
pub(crate) fn front_of(text: CutText, kind: CutText) -> usize
    ensures { result ≡ front (parts_in kind.entry.text.now) (seven text.entry.text.now) }
{
    let n = seen_of(kind).min(seen_of(text));
    for i in 0..n {
        if !fits_part(piece_at(kind, i), piece_at(text, i)) {
            return i;
        }
    }
    n
}
