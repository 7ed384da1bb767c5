// Rendering: checks of the identifiers, then the plain writers.
ghost use Rattle.std.specs.Prelude.{◌≡◌, [], length};
ghost use Rattle.text.specs.Bytes.{bytes};
ghost use Rattle.text.specs.Put.{answer, left};
ghost use Rattle.path.specs.declared.name.Name.TheVariants.{Upgrade};
ghost use Rattle.path.specs.Kinds.{carried};
ghost use Rattle.path.specs.Parents.{consensus_parent, packets_path};
ghost use Rattle.wide.specs.Mode.{wide};
ghost use Rattle.wide.specs.Render.{name_fault_in, render_in, text_in};

use crate::validate;
use crate::validate::Unicode;
use path::name::{Name, no_slash};
use render::checks::{NameCheck, checked_kind, checked_packets, checked_parent};
use render::fit::fit_kind;
use text::Written;
use text::refusal::{BAD_KIND, BAD_SEGMENT, BAD_UTF8};

// The refusal of an upgrade path.
fn upgrade_fault(s: &[u8]) -> u8
    ensures { result ≡ name_fault_in wide Upgrade s.now }
{
    if !letters::is_utf8(s) {
        return BAD_UTF8;
    }
    if !no_slash(s) {
        return BAD_SEGMENT;
    }
    0
}

// The refusal of an identifier of a path, 0 where it is accepted.
pub fn name_fault(name: Name, id: &[u8]) -> u8
    ensures { result ≡ name_fault_in wide name id.now }
{
    match name {
        Name::Client => validate::validate_client_identifier(id),
        Name::Connection => {
            let fault = validate::validate_connection_identifier(id);
            fault.refusal
        }
        Name::Port => validate::validate_port_identifier(id),
        Name::Channel => {
            let fault = validate::validate_channel_identifier(id);
            fault.refusal
        }
        Name::Upgrade => upgrade_fault(id),
    }
}

impl NameCheck for Unicode {
    ghost fault = { name_fault_in wide };

    fn name_fault(name: Name, id: &[u8]) -> u8 {
        name_fault(name, id)
    }
}

// Renders by kind and parts. Kinds 1 to 3 have no identifiers.
pub fn render(kind: u8, first: &[u8], second: &[u8], a: u64, b: u64, out: &mut [u8]) -> Written
    ensures value { result ≡ answer (render_in wide kind (carried first.now second.now a b)) (length out.old) }
    ensures out_after { out.new ≡ left (render_in wide kind (carried first.now second.now a b)) out.old }
{
    if kind < 1 || 19 < kind {
        return Written {
            refusal: BAD_KIND,
            length: 0,
        };
    }
    if kind < 4 {
        return fit_kind(out, kind, first, second, a, b);
    }
    checked_kind::<Unicode>(out, kind, first, second, a, b)
}

// `clients/C/consensusStates`.
pub fn consensus_state_parent(client: &[u8], out: &mut [u8]) -> Written
    ensures value { result ≡ answer (text_in wide consensus_parent (carried client.now [] 0 0)) (length out.old) }
    ensures out_after { out.new ≡ left (text_in wide consensus_parent (carried client.now [] 0 0)) out.old }
{
    checked_parent::<Unicode>(client, out)
}

// `commitments/ports/P/channels/H/sequences`.
pub fn commitments_path(port: &[u8], channel: &[u8], out: &mut [u8]) -> Written
    ensures value { result ≡ answer (text_in wide (packets_path (bytes "commitments")) (carried port.now channel.now 0 0)) (length out.old) }
    ensures out_after { out.new ≡ left (text_in wide (packets_path (bytes "commitments")) (carried port.now channel.now 0 0)) out.old }
{
    checked_packets::<Unicode>(b"commitments/ports/", port, channel, out)
}

// `acks/ports/P/channels/H/sequences`.
pub fn acks_path(port: &[u8], channel: &[u8], out: &mut [u8]) -> Written
    ensures value { result ≡ answer (text_in wide (packets_path (bytes "acks")) (carried port.now channel.now 0 0)) (length out.old) }
    ensures out_after { out.new ≡ left (text_in wide (packets_path (bytes "acks")) (carried port.now channel.now 0 0)) out.old }
{
    checked_packets::<Unicode>(b"acks/ports/", port, channel, out)
}

// `receipts/ports/P/channels/H/sequences`.
pub fn receipts_path(port: &[u8], channel: &[u8], out: &mut [u8]) -> Written
    ensures value { result ≡ answer (text_in wide (packets_path (bytes "receipts")) (carried port.now channel.now 0 0)) (length out.old) }
    ensures out_after { out.new ≡ left (text_in wide (packets_path (bytes "receipts")) (carried port.now channel.now 0 0)) out.old }
{
    checked_packets::<Unicode>(b"receipts/ports/", port, channel, out)
}
