// What is wrong with a text that is no path: the kind that it comes nearest to, the first component that does not fit, why, and at
// which byte.
#![tactic(auto)]

mod alike;
mod nearest;
mod pieces;
mod reason;
mod shape;

ghost use Rattle.std.specs.Prelude.{◌≡◌, ◌+◌, ◌-◌, ◌≤◌, ◌<◌, length, drop};
ghost use Rattle.path.specs.Read.{fits};
ghost use Rattle.diagnose.specs.Diagnosis.{lacks, first_fits, fits_first, why_at, seven, how_many, start_at, nearest, shown, diagnosis_of};
ghost use Rattle.diagnose.specs.Table.{part_in, parts_in, table};

use crate::nearest::{front_of, kind_at, nearest_kind};
use crate::pieces::{piece_at, seen_of};
use crate::reason::part_why;
use crate::shape::{Shape, fits_part, shape_of};
use path::{Cut, fault_of};
use read_pieces::cutter::CutText;
use walk::walk_view;

// The refusal, as the readers give it; the kind that the text reads as or comes nearest to, 0 where there is none; the
// component, from 1, that does not fit, 0 where the text reads; the reason, and the byte of the text, from 0.
#[repr(C)]
#[derive(Clone, Copy)]
pub struct Diagnosis {
    pub refusal: u8,
    pub kind: u8,
    pub component: u8,
    pub reason: u8,
    pub byte: u64,
}

// Why a component does not fit, and where in it.
#[derive(Clone, Copy)]
pub struct Why {
    pub reason: u8,
    pub place: u64,
}

// Whether component k is there and fits the part w.
fn fits_at(text: CutText, k: usize, w: &[u8]) -> bool
    ensures { result ≡ first_fits (part_in w.now) (drop k (seven text.entry.text.now)) }
{
    k < seen_of(text) && fits_part(w, piece_at(text, k))
}

// Whether part k is there and the component c fits it.
fn part_fits(kind: CutText, k: usize, c: &[u8]) -> bool
    ensures { result ≡ fits_first (drop k (parts_in kind.entry.text.now)) c.now }
{
    k < seen_of(kind) && fits_part(piece_at(kind, k), c)
}

// Whether nothing stands where something has to.
fn is_lacking(w: &[u8], c: &[u8]) -> bool
    ensures { result ≡ lacks (part_in w.now) c.now }
{
    if !c.is_empty() {
        return false;
    }
    match shape_of(w) {
        Shape::Count => false,
        _ => true,
    }
}

// Why component f does not fit, where those before it do.
fn why_at(text: CutText, kind: CutText, f: usize) -> Why
    requires { f ≤ 7 }
    ensures { result ≡ why_at (how_many text.entry.text.now) (length (parts_in kind.entry.text.now)) (drop f (parts_in kind.entry.text.now)) (drop f (seven text.entry.text.now)) }
{
    let n = text.cut.count;
    let m = seen_of(kind);
    if m <= f {
        return Why {
            reason: 3,
            place: 0,
        };
    }
    if seen_of(text) <= f {
        return Why {
            reason: 2,
            place: 0,
        };
    }
    let w = piece_at(kind, f);
    let c = piece_at(text, f);
    if is_lacking(w, c) {
        return Why {
            reason: 4,
            place: 0,
        };
    }
    if fits_at(text, f + n.saturating_sub(m), w) {
        return Why {
            reason: 3,
            place: 0,
        };
    }
    if part_fits(kind, f + m.saturating_sub(n), c) {
        return Why {
            reason: 2,
            place: 0,
        };
    }
    part_why(w, c)
}

// Where component f starts: the text's end where it has ended.
fn start_at(text: CutText, f: usize) -> usize
    ensures { result ≡ start_at text.entry.text.now f }
{
    let Cut { starts, count } = text.cut;
    if f < count {
        return starts[f];
    }
    text.text.len()
}

// The diagnosis of a text that was refused, over the kinds as they are written.
fn show(text: &[u8], refusal: u8, kinds: &[u8]) -> Diagnosis
    requires { kinds.now ≡ table }
    ensures { result ≡ shown text.now refusal (nearest (how_many text.now) (seven text.now)) }
{
    let cut = CutText::new(text);
    let k = nearest_kind(cut, kinds);
    if k == 0 {
        return Diagnosis {
            refusal,
            kind: 0,
            component: 1,
            reason: 1,
            byte: 0,
        };
    }
    let kind = CutText::new(kind_at(kinds, k));
    let f = front_of(cut, kind);
    let w = why_at(cut, kind, f);
    Diagnosis {
        refusal,
        kind: k,
        component: (f + 1) as u8,
        reason: w.reason,
        byte: start_at(cut, f) as u64 + w.place,
    }
}

// A diagnosis with nothing to show.
fn bare(refusal: u8, kind: u8) -> Diagnosis
    ensures { result ≡ record { refusal = refusal; kind = kind; component = 0; reason = 0; byte = 0 } }
{
    Diagnosis {
        refusal,
        kind,
        component: 0,
        reason: 0,
        byte: 0,
    }
}

// What is wrong with a text.
pub fn diagnose(text: &[u8]) -> Diagnosis
    ensures { result ≡ diagnosis_of text.now }
{
    match walk_view(text) {
        Ok(v) => bare(0, v.kind),
        Err(why) => {
            let fault = fault_of(why);
            let refusal = fault.refusal;
            if refusal < 3 {
                return bare(refusal, 0);
            }
            show(
                text,
                refusal,
                b"nextClientSequence nextConnectionSequence nextChannelSequence clients/C/clientState clients/C/consensusStates/R-h clients/C/consensusStates/R-h/processedTime clients/C/consensusStates/R-h/processedHeight clients/C/connections connections/K ports/P channelEnds/ports/P/channels/H nextSequenceSend/ports/P/channels/H nextSequenceRecv/ports/P/channels/H nextSequenceAck/ports/P/channels/H commitments/ports/P/channels/H/sequences/S acks/ports/P/channels/H/sequences/S receipts/ports/P/channels/H/sequences/S U/n/upgradedClient U/n/upgradedConsState",
            )
        }
    }
}
