// The C interface: what a program that is not Rattle's calls. Each function only hands its arguments on.
// `bin/interface` makes of this file what declares and calls the interface elsewhere. The comment above a function says what
// it gives and its refusals in the order in which they are looked for; a comment that stands alone heads what follows.
#![tactic(auto)]

ghost use Rattle.std.specs.Prelude.{◌≡◌, ◌∷◌, [], length};
ghost use Rattle.text.specs.Bytes.{bytes};
ghost use Rattle.text.specs.Put.{text, answer, left};
ghost use Rattle.text.specs.Refusal.{bad_iter_key, sentence};
ghost use Rattle.identifiers.specs.Check.{chars_of, length_of, prefix_length_of, named_index_fault, check_of, fault_of, client, client_type, connection, port, channel};
ghost use Rattle.identifiers.specs.Owned.{new_client, new_channel};
ghost use Rattle.path.specs.Kinds.{word, carried};
ghost use Rattle.path.specs.Parents.{text_of, consensus_parent, consensus_leaf, packets_path};
ghost use Rattle.path.specs.Read.{reading_bytes, read_fault, key_of, render_of};
ghost use Rattle.path.specs.Revision.{revision};
ghost use Rattle.path.specs.View.{provable_flag};
ghost use Rattle.iteration.specs.Block.{block_of, first_above, last_below, scanned};
ghost use Rattle.iteration.specs.Key.{iteration_key, key_revision, answered, pair_of};
ghost use Rattle.packet.specs.Key.{packet_in, packet_of, packet_wanted};
ghost use Rattle.wide.specs.Mode.{wide};
ghost use Rattle.wide.specs.Check.{chars_in, length_in, prefix_length_in, named_index_fault_in, check_in, fault_in, new_client_in};
ghost use Rattle.wide.specs.Read.{read_fault_in, reading_bytes_in, key_in};
ghost use Rattle.wide.specs.Render.{render_in, text_in};
ghost use Rattle.book_records.specs.declared.Manner.TheVariants.{Plain, Lenient};
ghost use Rattle.book.specs.Book.{Current};
ghost use Rattle.book.specs.Outcome.{Recorded, Removed, Looked, Made, quotas};
ghost use Rattle.book_clear.specs.Clear.{Cleared};
ghost use Rattle.book_convert.specs.Convert.{Converted, ConvertedOwners};
ghost use Rattle.book_oldest.specs.Oldest.{Oldest};
ghost use Rattle.book_table.specs.Many.{Fills, LooksMany};

use book_clear::Count;
use book_records::Manner;
use identifiers::channel_id::write_channel_id;
use identifiers::client_id::write_client_id;
use identifiers::validate;
use packet::Packet;
use path::provable::Flag;
use path::{Pair, Revision, RevisionHeight, RevisionNumber, Sequence};
use text::{Fault, Written};

// Identifier checks.

// All bytes are A-Z, a-z, 0-9 or one of `. _ + - # [ ] < >`: 2, 5.
#[unsafe(no_mangle)]
pub extern "C" fn hp_validate_identifier_chars(id: &[u8]) -> u8
    ensures { result ≡ chars_of id.now }
{
    validate::validate_identifier_chars(id)
}

// The length is from min, raised to 1, to max: 2, 6.
#[unsafe(no_mangle)]
pub extern "C" fn hp_validate_identifier_length(id: &[u8], min: u64, max: u64) -> u8
    ensures { result ≡ length_of id.now min max }
{
    validate::validate_identifier_length(id, min, max)
}

// The length is from min - 2, raised to 1, to max - 21, both stopping at 0: 2, 6.
#[unsafe(no_mangle)]
pub extern "C" fn hp_validate_prefix_length(prefix: &[u8], min: u64, max: u64) -> u8
    ensures { result ≡ prefix_length_of prefix.now min max }
{
    validate::validate_prefix_length(prefix, min, max)
}

// The name, `-` and an index; either text may give 2. The place of 17, 18 and 19 is the byte of id where the fault
// stands: 2, 7, then 17, 18 or 19.
#[unsafe(no_mangle)]
pub extern "C" fn hp_validate_named_u64_index(id: &[u8], name: &[u8]) -> Fault
    ensures { result ≡ named_index_fault id.now name.now }
{
    validate::validate_named_u64_index(id, name)
}

// A client type of 7 to 43 bytes: 2, 5, 6.
#[unsafe(no_mangle)]
pub extern "C" fn hp_validate_client_type(id: &[u8]) -> u8
    ensures { result ≡ check_of client_type id.now }
{
    validate::validate_client_type(id)
}

// A client identifier of 9 to 64 bytes: 2, 5, 6.
#[unsafe(no_mangle)]
pub extern "C" fn hp_validate_client_identifier(id: &[u8]) -> u8
    ensures { result ≡ check_of client id.now }
{
    validate::validate_client_identifier(id)
}

// A connection identifier of 10 to 64 bytes, `connection-` and an index, with the place as above: 2, 5, 6, 7, then 17,
// 18 or 19.
#[unsafe(no_mangle)]
pub extern "C" fn hp_validate_connection_identifier(id: &[u8]) -> Fault
    ensures { result ≡ fault_of connection id.now }
{
    validate::validate_connection_identifier(id)
}

// A port identifier of 2 to 128 bytes: 2, 5, 6.
#[unsafe(no_mangle)]
pub extern "C" fn hp_validate_port_identifier(id: &[u8]) -> u8
    ensures { result ≡ check_of port id.now }
{
    validate::validate_port_identifier(id)
}

// A channel identifier of 8 to 64 bytes, `channel-` and an index, with the place as above: 2, 5, 6, 7, then 17,
// 18 or 19.
#[unsafe(no_mangle)]
pub extern "C" fn hp_validate_channel_identifier(id: &[u8]) -> Fault
    ensures { result ≡ fault_of channel id.now }
{
    validate::validate_channel_identifier(id)
}

// Identifiers from a counter.

// The client type without the bytes 9 to 13 and 32 at its ends, `-` and the counter: 2, 5, 6, 4.
#[unsafe(no_mangle)]
pub extern "C" fn hp_client_id_new(client_type: &[u8], counter: u64, out: &mut [u8]) -> Written
    ensures value { result ≡ answer (new_client client_type.now counter) (length out.old) }
    ensures out_after { out.new ≡ left (new_client client_type.now counter) out.old }
{
    write_client_id(client_type, counter, out)
}

// `channel-` and the counter: 4.
#[unsafe(no_mangle)]
pub extern "C" fn hp_channel_id_new(counter: u64, out: &mut [u8]) -> Written
    ensures value { result ≡ answer (new_channel counter) (length out.old) }
    ensures out_after { out.new ≡ left (new_channel counter) out.old }
{
    write_channel_id(counter, out)
}

// Paths.

// The reading in 26 bytes, high bytes first: kind; 1 exact or 0 loose; start and length of the first identifier
// and of the second, 2 bytes each; two numbers of 8 bytes. What the kind lacks is 0. 17, 18 and 19 stand at 3's place, where
// a number alone is wrong, with the byte of the text where its fault stands: 1, 2, 3 (17, 18, 19), 4.
#[unsafe(no_mangle)]
pub extern "C" fn hp_read(text: &[u8], out: &mut [u8]) -> Fault
    ensures value { result ≡ read_fault text.now (length out.old) }
    ensures out_after { out.new ≡ left (reading_bytes text.now) out.old }
{
    reader::write_reading(text, out)
}

// The same by the second reader, which goes forward over the text and keeps no table of its components. A text that is refused
// is looked at again for the reason, a bad number by such a table. Equal to hp_read on every input, and faster, so of the two
// this is the one to call. hp_read is the plainer one, which it is held against.
#[unsafe(no_mangle)]
pub extern "C" fn hp_walk(text: &[u8], out: &mut [u8]) -> Fault
    ensures value { result ≡ read_fault text.now (length out.old) }
    ensures out_after { out.new ≡ left (reading_bytes text.now) out.old }
{
    walk::write_walk(text, out)
}

// The rendering of the text: 1, 2, 3 (17, 18, 19), 4.
#[unsafe(no_mangle)]
pub extern "C" fn hp_key(text: &[u8], out: &mut [u8]) -> Written
    ensures value { result ≡ answer (key_of text.now) (length out.old) }
    ensures out_after { out.new ≡ left (key_of text.now) out.old }
{
    key::write_key(text, out)
}

// The path of a kind; what the kind lacks has no influence: 14, first, second (an upgrade path: 2, 13), 1, 4.
#[unsafe(no_mangle)]
pub extern "C" fn hp_render(
    kind: u8,
    first: &[u8],
    second: &[u8],
    a: u64,
    b: u64,
    out: &mut [u8],
) -> Written
    ensures value { result ≡ answer (render_of kind (carried first.now second.now a b)) (length out.old) }
    ensures out_after { out.new ≡ left (render_of kind (carried first.now second.now a b)) out.old }
{
    render::render(kind, first, second, a, b, out)
}

// 1 where paths of the kind are provable: 14.
#[unsafe(no_mangle)]
pub extern "C" fn hp_is_provable(kind: u8) -> Flag
    ensures { result ≡ provable_flag kind }
{
    path::provable::kind_is_provable(kind)
}

// `iterateConsensusStates`, number and height, 38 bytes: 4.
#[unsafe(no_mangle)]
pub extern "C" fn hp_iteration_key(number: u64, height: u64, out: &mut [u8]) -> Written
    ensures value { result ≡ answer (text (iteration_key number height)) (length out.old) }
    ensures out_after { out.new ≡ left (text (iteration_key number height)) out.old }
{
    iteration::iteration_key(RevisionNumber(number), RevisionHeight(height), out)
}

// The revision number and height of an iteration key: 15.
#[unsafe(no_mangle)]
pub extern "C" fn hp_read_iteration_key(key: &[u8]) -> Pair
    ensures { result ≡ pair_of (answered bad_iter_key (key_revision key.now)) }
{
    iteration::pair_of(iteration::read_iteration_key(key))
}

// The first key above number and height in a block of iteration keys that stand one after the other and rise. 16 for a
// length that is no multiple of 38, for a piece that is no key, and for keys out of order or equal: 16, 12.
#[unsafe(no_mangle)]
pub extern "C" fn hp_first_above(block: &[u8], number: u64, height: u64) -> Pair
    ensures { result ≡ pair_of (scanned (first_above (revision number height)) (block_of block.now)) }
{
    let pair = Revision {
        number: RevisionNumber(number),
        height: RevisionHeight(height),
    };
    iteration::pair_of(iteration::block::first_above(block, pair))
}

// The last key below number and height in such a block: 16, 12.
#[unsafe(no_mangle)]
pub extern "C" fn hp_last_below(block: &[u8], number: u64, height: u64) -> Pair
    ensures { result ≡ pair_of (scanned (last_below (revision number height)) (block_of block.now)) }
{
    let pair = Revision {
        number: RevisionNumber(number),
        height: RevisionHeight(height),
    };
    iteration::pair_of(iteration::block::last_below(block, pair))
}

// Packet keys of IBC version 2, which no book takes.

// What a packet key says: its kind, 1 commitments, 2 receipts, 3 acknowledgements; how many of its first bytes are the
// client; its sequence. The last nine bytes are cut off first. 24 for fewer than nine, or for another marker: 24, the
// client's 2, 5, 6.
#[unsafe(no_mangle)]
pub extern "C" fn hp_v2_read(key: &[u8]) -> Packet
    ensures { result ≡ packet_of (packet_in key.now) }
{
    packet::packet_of(packet::read_packet_key(key))
}

// The client, the kind's marker byte, and the sequence in 8 bytes, high byte first. 24 for a kind that is not 1, 2 or 3:
// 24, the client's 2, 5, 6; then 4.
#[unsafe(no_mangle)]
pub extern "C" fn hp_v2_write(kind: u8, client: &[u8], sequence: u64, out: &mut [u8]) -> Written
    ensures value { result ≡ answer (packet_wanted kind client.now sequence) (length out.old) }
    ensures out_after { out.new ≡ left (packet_wanted kind client.now sequence) out.old }
{
    packet::write_packet_key(kind, client, Sequence(sequence), out)
}

// Texts above and below a path.

// `clients`: 4.
#[unsafe(no_mangle)]
pub extern "C" fn hp_client_state_prefix(out: &mut [u8]) -> Written
    ensures value { result ≡ answer (text (bytes "clients")) (length out.old) }
    ensures out_after { out.new ≡ left (text (bytes "clients")) out.old }
{
    render::texts::client_state_prefix(out)
}

// `clientState`: 4.
#[unsafe(no_mangle)]
pub extern "C" fn hp_client_state_leaf(out: &mut [u8]) -> Written
    ensures value { result ≡ answer (text (bytes "clientState")) (length out.old) }
    ensures out_after { out.new ≡ left (text (bytes "clientState")) out.old }
{
    render::texts::client_state_leaf(out)
}

// `clients/C/consensusStates`: the client's 2, 5, 6; then 4.
#[unsafe(no_mangle)]
pub extern "C" fn hp_consensus_state_parent(client: &[u8], out: &mut [u8]) -> Written
    ensures value { result ≡ answer (text_of consensus_parent (carried client.now [] 0 0)) (length out.old) }
    ensures out_after { out.new ≡ left (text_of consensus_parent (carried client.now [] 0 0)) out.old }
{
    render::texts::consensus_state_parent(client, out)
}

// `consensusStates/R-h`: 4.
#[unsafe(no_mangle)]
pub extern "C" fn hp_consensus_state_leaf(number: u64, height: u64, out: &mut [u8]) -> Written
    ensures value { result ≡ answer (text_of (consensus_leaf []) (carried [] [] number height)) (length out.old) }
    ensures out_after { out.new ≡ left (text_of (consensus_leaf []) (carried [] [] number height)) out.old }
{
    render::texts::consensus_state_leaf(RevisionNumber(number), RevisionHeight(height), out)
}

// `consensusStates/R-h/processedTime`: 4.
#[unsafe(no_mangle)]
pub extern "C" fn hp_update_time_leaf(number: u64, height: u64, out: &mut [u8]) -> Written
    ensures value { result ≡ answer (text_of (consensus_leaf (word (bytes "processedTime") ∷ [])) (carried [] [] number height)) (length out.old) }
    ensures out_after { out.new ≡ left (text_of (consensus_leaf (word (bytes "processedTime") ∷ [])) (carried [] [] number height)) out.old }
{
    render::texts::update_time_leaf(RevisionNumber(number), RevisionHeight(height), out)
}

// `consensusStates/R-h/processedHeight`: 4.
#[unsafe(no_mangle)]
pub extern "C" fn hp_update_height_leaf(number: u64, height: u64, out: &mut [u8]) -> Written
    ensures value { result ≡ answer (text_of (consensus_leaf (word (bytes "processedHeight") ∷ [])) (carried [] [] number height)) (length out.old) }
    ensures out_after { out.new ≡ left (text_of (consensus_leaf (word (bytes "processedHeight") ∷ [])) (carried [] [] number height)) out.old }
{
    render::texts::update_height_leaf(RevisionNumber(number), RevisionHeight(height), out)
}

// `connections`: 4.
#[unsafe(no_mangle)]
pub extern "C" fn hp_connection_prefix(out: &mut [u8]) -> Written
    ensures value { result ≡ answer (text (bytes "connections")) (length out.old) }
    ensures out_after { out.new ≡ left (text (bytes "connections")) out.old }
{
    render::texts::connection_prefix(out)
}

// `channelEnds`: 4.
#[unsafe(no_mangle)]
pub extern "C" fn hp_channel_end_prefix(out: &mut [u8]) -> Written
    ensures value { result ≡ answer (text (bytes "channelEnds")) (length out.old) }
    ensures out_after { out.new ≡ left (text (bytes "channelEnds")) out.old }
{
    render::texts::channel_end_prefix(out)
}

// `commitments/ports/P/channels/H/sequences`: the port's 2, 5, 6; the channel's 2, 5, 6, 7, then
// 17, 18 or 19; then 4.
#[unsafe(no_mangle)]
pub extern "C" fn hp_commitments_path(port: &[u8], channel: &[u8], out: &mut [u8]) -> Written
    ensures value { result ≡ answer (text_of (packets_path (bytes "commitments")) (carried port.now channel.now 0 0)) (length out.old) }
    ensures out_after { out.new ≡ left (text_of (packets_path (bytes "commitments")) (carried port.now channel.now 0 0)) out.old }
{
    render::texts::commitments_path(port, channel, out)
}

// `acks/ports/P/channels/H/sequences`: the port's 2, 5, 6; the channel's 2, 5, 6, 7, then
// 17, 18 or 19; then 4.
#[unsafe(no_mangle)]
pub extern "C" fn hp_acks_path(port: &[u8], channel: &[u8], out: &mut [u8]) -> Written
    ensures value { result ≡ answer (text_of (packets_path (bytes "acks")) (carried port.now channel.now 0 0)) (length out.old) }
    ensures out_after { out.new ≡ left (text_of (packets_path (bytes "acks")) (carried port.now channel.now 0 0)) out.old }
{
    render::texts::acks_path(port, channel, out)
}

// `receipts/ports/P/channels/H/sequences`: the port's 2, 5, 6; the channel's 2, 5, 6, 7, then
// 17, 18 or 19; then 4.
#[unsafe(no_mangle)]
pub extern "C" fn hp_receipts_path(port: &[u8], channel: &[u8], out: &mut [u8]) -> Written
    ensures value { result ≡ answer (text_of (packets_path (bytes "receipts")) (carried port.now channel.now 0 0)) (length out.old) }
    ensures out_after { out.new ≡ left (text_of (packets_path (bytes "receipts")) (carried port.now channel.now 0 0)) out.old }
{
    render::texts::receipts_path(port, channel, out)
}

// `commitments`: 4.
#[unsafe(no_mangle)]
pub extern "C" fn hp_commitment_prefix(out: &mut [u8]) -> Written
    ensures value { result ≡ answer (text (bytes "commitments")) (length out.old) }
    ensures out_after { out.new ≡ left (text (bytes "commitments")) out.old }
{
    render::texts::commitment_prefix(out)
}

// `acks`: 4.
#[unsafe(no_mangle)]
pub extern "C" fn hp_ack_prefix(out: &mut [u8]) -> Written
    ensures value { result ≡ answer (text (bytes "acks")) (length out.old) }
    ensures out_after { out.new ≡ left (text (bytes "acks")) out.old }
{
    render::texts::ack_prefix(out)
}

// `receipts`: 4.
#[unsafe(no_mangle)]
pub extern "C" fn hp_receipt_prefix(out: &mut [u8]) -> Written
    ensures value { result ≡ answer (text (bytes "receipts")) (length out.old) }
    ensures out_after { out.new ≡ left (text (bytes "receipts")) out.old }
{
    render::texts::receipt_prefix(out)
}

// Letters beyond ASCII: as the plain call of that name, with 21 in the place of 2. Characters are those of UTF-8; a letter or number
// of any script may stand in an identifier; lengths and places are counted in bytes.

// All characters are letters, numbers or one of `. _ + - # [ ] < >`: 21, 5.
#[unsafe(no_mangle)]
pub extern "C" fn hp_wide_validate_identifier_chars(id: &[u8]) -> u8
    ensures { result ≡ chars_in wide id.now }
{
    wide::validate::validate_identifier_chars(id)
}

// As hp_validate_identifier_length: 21, 6.
#[unsafe(no_mangle)]
pub extern "C" fn hp_wide_validate_identifier_length(id: &[u8], min: u64, max: u64) -> u8
    ensures { result ≡ length_in wide id.now min max }
{
    wide::validate::validate_identifier_length(id, min, max)
}

// As hp_validate_prefix_length: 21, 6.
#[unsafe(no_mangle)]
pub extern "C" fn hp_wide_validate_prefix_length(prefix: &[u8], min: u64, max: u64) -> u8
    ensures { result ≡ prefix_length_in wide prefix.now min max }
{
    wide::validate::validate_prefix_length(prefix, min, max)
}

// As hp_validate_named_u64_index; the digits of an index are ASCII: 21, 7, then 17, 18 or 19.
#[unsafe(no_mangle)]
pub extern "C" fn hp_wide_validate_named_u64_index(id: &[u8], name: &[u8]) -> Fault
    ensures { result ≡ named_index_fault_in wide id.now name.now }
{
    wide::validate::validate_named_u64_index(id, name)
}

// As hp_validate_client_type: 21, 5, 6.
#[unsafe(no_mangle)]
pub extern "C" fn hp_wide_validate_client_type(id: &[u8]) -> u8
    ensures { result ≡ check_in wide client_type id.now }
{
    wide::validate::validate_client_type(id)
}

// As hp_validate_client_identifier: 21, 5, 6.
#[unsafe(no_mangle)]
pub extern "C" fn hp_wide_validate_client_identifier(id: &[u8]) -> u8
    ensures { result ≡ check_in wide client id.now }
{
    wide::validate::validate_client_identifier(id)
}

// As hp_validate_connection_identifier: 21, 5, 6, 7, then 17, 18 or 19.
#[unsafe(no_mangle)]
pub extern "C" fn hp_wide_validate_connection_identifier(id: &[u8]) -> Fault
    ensures { result ≡ fault_in wide connection id.now }
{
    wide::validate::validate_connection_identifier(id)
}

// As hp_validate_port_identifier: 21, 5, 6.
#[unsafe(no_mangle)]
pub extern "C" fn hp_wide_validate_port_identifier(id: &[u8]) -> u8
    ensures { result ≡ check_in wide port id.now }
{
    wide::validate::validate_port_identifier(id)
}

// As hp_validate_channel_identifier: 21, 5, 6, 7, then 17, 18 or 19.
#[unsafe(no_mangle)]
pub extern "C" fn hp_wide_validate_channel_identifier(id: &[u8]) -> Fault
    ensures { result ≡ fault_in wide channel id.now }
{
    wide::validate::validate_channel_identifier(id)
}

// As hp_client_id_new, without the white space of all scripts at the ends: 21, 5, 6, 4.
#[unsafe(no_mangle)]
pub extern "C" fn hp_wide_client_id_new(client_type: &[u8], counter: u64, out: &mut [u8]) -> Written
    ensures value { result ≡ answer (new_client_in wide client_type.now counter) (length out.old) }
    ensures out_after { out.new ≡ left (new_client_in wide client_type.now counter) out.old }
{
    wide::client_id::write_client_id(client_type, counter, out)
}

// As hp_read: 1, 21, 3 (17, 18, 19), 4.
#[unsafe(no_mangle)]
pub extern "C" fn hp_wide_read(text: &[u8], out: &mut [u8]) -> Fault
    ensures value { result ≡ read_fault_in wide text.now (length out.old) }
    ensures out_after { out.new ≡ left (reading_bytes_in wide text.now) out.old }
{
    wide::read::write_reading(text, out)
}

// As hp_key: 1, 21, 3 (17, 18, 19), 4.
#[unsafe(no_mangle)]
pub extern "C" fn hp_wide_key(text: &[u8], out: &mut [u8]) -> Written
    ensures value { result ≡ answer (key_in wide text.now) (length out.old) }
    ensures out_after { out.new ≡ left (key_in wide text.now) out.old }
{
    wide::read::write_key(text, out)
}

// As hp_render: 14, first, second (an upgrade path: 21, 13), 1, 4.
#[unsafe(no_mangle)]
pub extern "C" fn hp_wide_render(
    kind: u8,
    first: &[u8],
    second: &[u8],
    a: u64,
    b: u64,
    out: &mut [u8],
) -> Written
    ensures value { result ≡ answer (render_in wide kind (carried first.now second.now a b)) (length out.old) }
    ensures out_after { out.new ≡ left (render_in wide kind (carried first.now second.now a b)) out.old }
{
    wide::rendering::render(kind, first, second, a, b, out)
}

// As hp_consensus_state_parent: the client's 21, 5, 6; then 4.
#[unsafe(no_mangle)]
pub extern "C" fn hp_wide_consensus_state_parent(client: &[u8], out: &mut [u8]) -> Written
    ensures value { result ≡ answer (text_in wide consensus_parent (carried client.now [] 0 0)) (length out.old) }
    ensures out_after { out.new ≡ left (text_in wide consensus_parent (carried client.now [] 0 0)) out.old }
{
    wide::rendering::consensus_state_parent(client, out)
}

// As hp_commitments_path: the port's 21, 5, 6; the channel's 21, 5, 6, 7, then
// 17, 18 or 19; then 4.
#[unsafe(no_mangle)]
pub extern "C" fn hp_wide_commitments_path(port: &[u8], channel: &[u8], out: &mut [u8]) -> Written
    ensures value { result ≡ answer (text_in wide (packets_path (bytes "commitments")) (carried port.now channel.now 0 0)) (length out.old) }
    ensures out_after { out.new ≡ left (text_in wide (packets_path (bytes "commitments")) (carried port.now channel.now 0 0)) out.old }
{
    wide::rendering::commitments_path(port, channel, out)
}

// As hp_acks_path: the port's 21, 5, 6; the channel's 21, 5, 6, 7, then
// 17, 18 or 19; then 4.
#[unsafe(no_mangle)]
pub extern "C" fn hp_wide_acks_path(port: &[u8], channel: &[u8], out: &mut [u8]) -> Written
    ensures value { result ≡ answer (text_in wide (packets_path (bytes "acks")) (carried port.now channel.now 0 0)) (length out.old) }
    ensures out_after { out.new ≡ left (text_in wide (packets_path (bytes "acks")) (carried port.now channel.now 0 0)) out.old }
{
    wide::rendering::acks_path(port, channel, out)
}

// As hp_receipts_path: the port's 21, 5, 6; the channel's 21, 5, 6, 7, then
// 17, 18 or 19; then 4.
#[unsafe(no_mangle)]
pub extern "C" fn hp_wide_receipts_path(port: &[u8], channel: &[u8], out: &mut [u8]) -> Written
    ensures value { result ≡ answer (text_in wide (packets_path (bytes "receipts")) (carried port.now channel.now 0 0)) (length out.old) }
    ensures out_after { out.new ≡ left (text_in wide (packets_path (bytes "receipts")) (carried port.now channel.now 0 0)) out.old }
{
    wide::rendering::receipts_path(port, channel, out)
}

// Books.

// Makes the buffer, whatever it holds, a book of version 3 without records, in which owner 1 may have quota1 of them and owner 2
// quota2; its size alone is looked at: 9, then 11 where the quotas sum to more than its slots.
#[unsafe(no_mangle)]
pub extern "C" fn hp_book_new(book: &mut [u8], quota1: u16, quota2: u16) -> u8
    ensures { Made Current (quotas quota1 quota2) book.old result book.new }
{
    book::new_book(book, quota1, quota2)
}

// The owner's text, which is its own rendering, holds the value from now on, anew or in place of what it held:
// 9, 23, 1, 2, 3 (17, 18, 19), 20, 10, 25 where it is of kind 8, 6, then 11 where it is new and the owner has as many records as its
// quota.
#[unsafe(no_mangle)]
pub extern "C" fn hp_book_write(book: &mut [u8], owner: u8, text: &[u8], value: &[u8]) -> u8
    ensures { Recorded Current Plain book.old owner text.now value.now result book.new }
{
    book::write(Manner::Plain, book, owner, text, value)
}

// The owner's text, which is its own rendering, holds nothing from now on: 9, 23, 1, 2, 3 (17, 18, 19), 20, 10, 12.
#[unsafe(no_mangle)]
pub extern "C" fn hp_book_remove(book: &mut [u8], owner: u8, text: &[u8]) -> u8
    ensures { Removed Current Plain book.old owner text.now result book.new }
{
    book::remove(Manner::Plain, book, owner, text)
}

// What the owner's text, which is its own rendering, holds, 1 to 64 bytes; wants room for 64 whatever it holds:
// 9, 23, 1, 2, 3 (17, 18, 19), 20, 10, 4, 12.
#[unsafe(no_mangle)]
pub extern "C" fn hp_book_lookup(book: &[u8], owner: u8, text: &[u8], out: &mut [u8]) -> Written
    ensures { Looked Current Plain book.now owner text.now out.old result out.new }
{
    book::lookup(Manner::Plain, book, owner, text, out)
}

// As hp_book_write, on the rendering of the text, for importers that pad their heights:
// 9, 23, 1, 2, 3 (17, 18, 19), 10, 25, 6, 11.
#[unsafe(no_mangle)]
pub extern "C" fn hp_book_write_lenient(book: &mut [u8], owner: u8, text: &[u8], value: &[u8]) -> u8
    ensures { Recorded Current Lenient book.old owner text.now value.now result book.new }
{
    book::write(Manner::Lenient, book, owner, text, value)
}

// As hp_book_remove, on the rendering of the text, for importers that pad their heights: 9, 23, 1, 2, 3 (17, 18, 19), 10, 12.
#[unsafe(no_mangle)]
pub extern "C" fn hp_book_remove_lenient(book: &mut [u8], owner: u8, text: &[u8]) -> u8
    ensures { Removed Current Lenient book.old owner text.now result book.new }
{
    book::remove(Manner::Lenient, book, owner, text)
}

// As hp_book_lookup, on the rendering of the text, for importers that pad their heights: 9, 23, 1, 2, 3 (17, 18, 19), 10, 4, 12.
#[unsafe(no_mangle)]
pub extern "C" fn hp_book_lookup_lenient(
    book: &[u8],
    owner: u8,
    text: &[u8],
    out: &mut [u8],
) -> Written
    ensures { Looked Current Lenient book.now owner text.now out.old result out.new }
{
    book::lookup(Manner::Lenient, book, owner, text, out)
}

// The smallest pair of revision number and height among the client's records `clients/C/consensusStates/R-h` of that owner: 9, 23,
// the client's 2, 5, 6; then 12.
#[unsafe(no_mangle)]
pub extern "C" fn hp_book_oldest(book: &[u8], owner: u8, client: &[u8]) -> Pair
    ensures { Oldest Current book.now owner client.now result }
{
    book_oldest::oldest(book, owner, client)
}

// Of the client's records `clients/C/consensusStates/R-h` of that owner keeps as many as `keep` says, those with the greatest pairs of
// revision number and height, and removes the others, each with its processed time and height; then those times and heights that
// have no such record and a pair below every kept one. Without such a record it removes nothing. Answers how many records went:
// 9, 23, the client's 2, 5, 6.
#[unsafe(no_mangle)]
pub extern "C" fn hp_book_clear(book: &mut [u8], owner: u8, client: &[u8], keep: u64) -> Count
    ensures { Cleared Current book.old owner client.now keep result book.new }
{
    book_clear::clear(book, owner, client, keep)
}

// Makes the second buffer, whatever it holds, the book of version 2 that has the slots and the records of `old`, a book
// of version 1: 9 where that is none, then 4 where the second buffer is not of that book's size.
#[unsafe(no_mangle)]
pub extern "C" fn hp_book_convert(old: &[u8], book: &mut [u8]) -> u8
    ensures { Converted old.now book.old result book.new }
{
    book_convert::convert(old, book)
}

// Makes the second buffer, whatever it holds, the book of version 3 that has the slots and the records of `old`, a book of
// version 2, all of them owner 1's: 9 where that is none, then 4 where the second buffer is not of that book's size, then 11
// where the quotas sum to more than its slots, or there are more records than the first quota.
#[unsafe(no_mangle)]
pub extern "C" fn hp_book_convert_owners(
    old: &[u8],
    book: &mut [u8],
    quota1: u16,
    quota2: u16,
) -> u8
    ensures { ConvertedOwners old.now book.old (quotas quota1 quota2) result book.new }
{
    book_convert::convert_owners(old, book, quota1, quota2)
}

// Fills the first 512 bytes of the table with the buckets by which the book's records, of both owners, are found: 9, 4.
#[unsafe(no_mangle)]
pub extern "C" fn hp_book_fill(book: &[u8], table: &mut [u8]) -> u8
    ensures { Fills Current book.now table.old result table.new }
{
    book_table::many::fill(book, table)
}

// What hp_book_lookup gives the owner for each text of `texts`, which byte 10 ends, by a table of 512 bytes that was filled from this book
// as it is now: 66 bytes a text, its refusal number, the length of its value, and the value filled with zeros to 64. Bytes after
// the last 10 are a text if there are any: 9, 23, 22, 4.
#[unsafe(no_mangle)]
pub extern "C" fn hp_book_lookup_many(
    book: &[u8],
    owner: u8,
    table: &[u8],
    texts: &[u8],
    out: &mut [u8],
) -> Written
    ensures { LooksMany Current book.now owner table.now texts.now out.old result out.new }
{
    book_table::many::look_many(book, owner, table, texts, out)
}

// What refusals mean.

// The sentence of a refusal, by its number: what was wrong and what to do about it, at most 128 bytes. `done` for 0, and
// nothing, with length 0, for a number that is no refusal: 4.
#[unsafe(no_mangle)]
pub extern "C" fn hp_refusal_text(number: u8, out: &mut [u8]) -> Written
    ensures value { result ≡ answer (text (sentence number)) (length out.old) }
    ensures out_after { out.new ≡ left (text (sentence number)) out.old }
{
    sentences::give_sentence(out, number)
}
