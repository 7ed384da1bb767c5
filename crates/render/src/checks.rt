// What is checked before it is written, whatever the identifiers are made of: ASCII alone, or letters beyond it too.
ghost use Rattle.std.specs.Prelude.{◌≡◌, ℕ, List, ◌≤◌, length};
ghost use Rattle.text.specs.Put.{accepted, answer, left};
ghost use Rattle.path.specs.declared.name.Name.{Name};
ghost use Rattle.path.specs.declared.name.Name.TheVariants.{Client};
ghost use Rattle.path.specs.Kinds.{carried};
ghost use Rattle.path.specs.Read as read;
ghost use Rattle.path.specs.Read.{parts_of};
ghost use Rattle.writers.specs.Texts.{parent_text, packets_text};
ghost use Rattle.render.specs.declared.Names.TheVariants.{PortAndChannel};
ghost use Rattle.render.specs.Render.{names_of, fault_by, short, checked};

use crate::fit::fit_kind;
use crate::texts::{fit_packets_path, fit_parent};
use crate::{Names, names_of};
use identifiers::alphabet::Ascii;
use path::name::Name;
use text::Written;

// How an identifier of a path is checked, whatever it is made of.
pub trait NameCheck {
    ghost fault: { Name → List ℕ → ℕ };

    // The refusal of an identifier of a path, 0 where it is accepted.
    fn name_fault(name: Name, id: &[u8]) -> u8
        ensures { result ≡ fault name id.now };
}

impl NameCheck for Ascii {
    ghost fault = { read.name_fault };

    fn name_fault(name: Name, id: &[u8]) -> u8 {
        path::name::name_fault(name, id)
    }
}

// The first refusal of a port and a channel.
fn ends_fault<C: NameCheck>(port: &[u8], channel: &[u8]) -> u8
    ensures { result ≡ fault_by C.fault PortAndChannel port.now channel.now }
{
    let refusal = C::name_fault(Name::Port, port);
    if refusal != 0 {
        return refusal;
    }
    C::name_fault(Name::Channel, channel)
}

// The first refusal of the identifiers that a kind from 4 on has.
fn kind_fault<C: NameCheck>(kind: u8, first: &[u8], second: &[u8]) -> u8
    ensures { result ≡ fault_by C.fault (names_of kind) first.now second.now }
{
    match names_of(kind) {
        Names::One(name) => C::name_fault(name, first),
        Names::PortAndChannel => ends_fault::<C>(first, second),
    }
}

// Checks the identifiers of a kind, then writes it.
pub fn checked_kind<C: NameCheck>(
    out: &mut [u8],
    kind: u8,
    first: &[u8],
    second: &[u8],
    a: u64,
    b: u64,
) -> Written
    requires { (4 ≤ kind) × (kind ≤ 19) }
    ensures value { result ≡ answer (checked (fault_by C.fault (names_of kind) first.now second.now) (short (read.render (parts_of kind) (carried first.now second.now a b)))) (length out.old) }
    ensures out_after { out.new ≡ left (checked (fault_by C.fault (names_of kind) first.now second.now) (short (read.render (parts_of kind) (carried first.now second.now a b)))) out.old }
{
    let refusal = kind_fault::<C>(kind, first, second);
    if refusal != 0 {
        return Written { refusal, length: 0 };
    }
    fit_kind(out, kind, first, second, a, b)
}

// Checks a client, then writes `clients/C/consensusStates`.
pub fn checked_parent<C: NameCheck>(client: &[u8], out: &mut [u8]) -> Written
    ensures value { result ≡ answer (accepted (C.fault Client client.now) (parent_text client.now)) (length out.old) }
    ensures out_after { out.new ≡ left (accepted (C.fault Client client.now) (parent_text client.now)) out.old }
{
    let refusal = C::name_fault(Name::Client, client);
    if refusal != 0 {
        return Written { refusal, length: 0 };
    }
    fit_parent(client, out)
}

// Checks a port and a channel, then writes the path of their packets; `first` is its first component and `/ports/`.
pub fn checked_packets<C: NameCheck>(
    first: &[u8],
    port: &[u8],
    channel: &[u8],
    out: &mut [u8],
) -> Written
    requires { length first.now ≤ 64 }
    ensures value { result ≡ answer (accepted (fault_by C.fault PortAndChannel port.now channel.now) (packets_text first.now port.now channel.now)) (length out.old) }
    ensures out_after { out.new ≡ left (accepted (fault_by C.fault PortAndChannel port.now channel.now) (packets_text first.now port.now channel.now)) out.old }
{
    let refusal = ends_fault::<C>(port, channel);
    if refusal != 0 {
        return Written { refusal, length: 0 };
    }
    fit_packets_path(first, port, channel, out)
}
