// The archive libhostpath.a, which other programs link: each call of `hostpath` under its name, with its clauses. What a call
// gives, and its refusals, the comment above it there says. All but these lines and the types is made by bin/interface.
#![tactic(auto)]

// Below, made by bin/interface: imports of clauses.
ghost use Rattle.std.specs.Prelude.{◌≡◌, ◌∷◌, [], length};
ghost use Rattle.text.specs.Bytes.{bytes};
ghost use Rattle.text.specs.Put.{text, answer, left};
ghost use Rattle.text.specs.Refusal.{bad_iter_key, sentence};
ghost use Rattle.identifiers.specs.Check.{chars_of, length_of, prefix_length_of, named_index_fault, check_of, fault_of, client, client_type, connection, port, channel};
ghost use Rattle.identifiers.specs.Owned.{new_client, new_channel};
ghost use Rattle.path.specs.Kinds.{word, carried};
ghost use Rattle.path.specs.Parents.{text_of, consensus_parent, consensus_leaf, packets_path};
ghost use Rattle.path.specs.Read.{reading_bytes, read_fault, key_of, render_of};
ghost use Rattle.path.specs.Revision.{revision};
ghost use Rattle.path.specs.View.{provable_flag};
ghost use Rattle.iteration.specs.Block.{block_of, first_above, last_below, scanned};
ghost use Rattle.iteration.specs.Key.{iteration_key, key_revision, answered, pair_of};
ghost use Rattle.packet.specs.Key.{packet_in, packet_of, packet_wanted};
ghost use Rattle.wide.specs.Mode.{wide};
ghost use Rattle.wide.specs.Check.{chars_in, length_in, prefix_length_in, named_index_fault_in, check_in, fault_in, new_client_in};
ghost use Rattle.wide.specs.Read.{read_fault_in, reading_bytes_in, key_in};
ghost use Rattle.wide.specs.Render.{render_in, text_in};
ghost use Rattle.book_records.specs.declared.Manner.TheVariants.{Plain, Lenient};
ghost use Rattle.book.specs.Book.{Current};
ghost use Rattle.book.specs.Outcome.{Recorded, Removed, Looked, Made, quotas};
ghost use Rattle.book_clear.specs.Clear.{Cleared};
ghost use Rattle.book_convert.specs.Convert.{Converted, ConvertedOwners};
ghost use Rattle.book_oldest.specs.Oldest.{Oldest};
ghost use Rattle.book_table.specs.Many.{Fills, LooksMany};
// Above, made by bin/interface.

use book_clear::Count;
use packet::Packet;
use path::Pair;
use path::provable::Flag;
use text::{Fault, Written};

// Below, made by bin/interface: exports.

#[unsafe(no_mangle)]
pub extern "C" fn hp_validate_identifier_chars(id: &[u8]) -> u8
    ensures { result ≡ chars_of id.now }
{
    hostpath::hp_validate_identifier_chars(id)
}

#[unsafe(no_mangle)]
pub extern "C" fn hp_validate_identifier_length(id: &[u8], min: u64, max: u64) -> u8
    ensures { result ≡ length_of id.now min max }
{
    hostpath::hp_validate_identifier_length(id, min, max)
}

#[unsafe(no_mangle)]
pub extern "C" fn hp_validate_prefix_length(prefix: &[u8], min: u64, max: u64) -> u8
    ensures { result ≡ prefix_length_of prefix.now min max }
{
    hostpath::hp_validate_prefix_length(prefix, min, max)
}

#[unsafe(no_mangle)]
pub extern "C" fn hp_validate_named_u64_index(id: &[u8], name: &[u8]) -> Fault
    ensures { result ≡ named_index_fault id.now name.now }
{
    hostpath::hp_validate_named_u64_index(id, name)
}

#[unsafe(no_mangle)]
pub extern "C" fn hp_validate_client_type(id: &[u8]) -> u8
    ensures { result ≡ check_of client_type id.now }
{
    hostpath::hp_validate_client_type(id)
}

#[unsafe(no_mangle)]
pub extern "C" fn hp_validate_client_identifier(id: &[u8]) -> u8
    ensures { result ≡ check_of client id.now }
{
    hostpath::hp_validate_client_identifier(id)
}

#[unsafe(no_mangle)]
pub extern "C" fn hp_validate_connection_identifier(id: &[u8]) -> Fault
    ensures { result ≡ fault_of connection id.now }
{
    hostpath::hp_validate_connection_identifier(id)
}

#[unsafe(no_mangle)]
pub extern "C" fn hp_validate_port_identifier(id: &[u8]) -> u8
    ensures { result ≡ check_of port id.now }
{
    hostpath::hp_validate_port_identifier(id)
}

#[unsafe(no_mangle)]
pub extern "C" fn hp_validate_channel_identifier(id: &[u8]) -> Fault
    ensures { result ≡ fault_of channel id.now }
{
    hostpath::hp_validate_channel_identifier(id)
}

#[unsafe(no_mangle)]
pub extern "C" fn hp_client_id_new(client_type: &[u8], counter: u64, out: &mut [u8]) -> Written
    ensures value { result ≡ answer (new_client client_type.now counter) (length out.old) }
    ensures out_after { out.new ≡ left (new_client client_type.now counter) out.old }
{
    hostpath::hp_client_id_new(client_type, counter, out)
}

#[unsafe(no_mangle)]
pub extern "C" fn hp_channel_id_new(counter: u64, out: &mut [u8]) -> Written
    ensures value { result ≡ answer (new_channel counter) (length out.old) }
    ensures out_after { out.new ≡ left (new_channel counter) out.old }
{
    hostpath::hp_channel_id_new(counter, out)
}

#[unsafe(no_mangle)]
pub extern "C" fn hp_read(text: &[u8], out: &mut [u8]) -> Fault
    ensures value { result ≡ read_fault text.now (length out.old) }
    ensures out_after { out.new ≡ left (reading_bytes text.now) out.old }
{
    hostpath::hp_read(text, out)
}

#[unsafe(no_mangle)]
pub extern "C" fn hp_walk(text: &[u8], out: &mut [u8]) -> Fault
    ensures value { result ≡ read_fault text.now (length out.old) }
    ensures out_after { out.new ≡ left (reading_bytes text.now) out.old }
{
    hostpath::hp_walk(text, out)
}

#[unsafe(no_mangle)]
pub extern "C" fn hp_key(text: &[u8], out: &mut [u8]) -> Written
    ensures value { result ≡ answer (key_of text.now) (length out.old) }
    ensures out_after { out.new ≡ left (key_of text.now) out.old }
{
    hostpath::hp_key(text, out)
}

#[unsafe(no_mangle)]
pub extern "C" fn hp_render(
    kind: u8,
    first: &[u8],
    second: &[u8],
    a: u64,
    b: u64,
    out: &mut [u8],
) -> Written
    ensures value { result ≡ answer (render_of kind (carried first.now second.now a b)) (length out.old) }
    ensures out_after { out.new ≡ left (render_of kind (carried first.now second.now a b)) out.old }
{
    hostpath::hp_render(kind, first, second, a, b, out)
}

#[unsafe(no_mangle)]
pub extern "C" fn hp_is_provable(kind: u8) -> Flag
    ensures { result ≡ provable_flag kind }
{
    hostpath::hp_is_provable(kind)
}

#[unsafe(no_mangle)]
pub extern "C" fn hp_iteration_key(number: u64, height: u64, out: &mut [u8]) -> Written
    ensures value { result ≡ answer (text (iteration_key number height)) (length out.old) }
    ensures out_after { out.new ≡ left (text (iteration_key number height)) out.old }
{
    hostpath::hp_iteration_key(number, height, out)
}

#[unsafe(no_mangle)]
pub extern "C" fn hp_read_iteration_key(key: &[u8]) -> Pair
    ensures { result ≡ pair_of (answered bad_iter_key (key_revision key.now)) }
{
    hostpath::hp_read_iteration_key(key)
}

#[unsafe(no_mangle)]
pub extern "C" fn hp_first_above(block: &[u8], number: u64, height: u64) -> Pair
    ensures { result ≡ pair_of (scanned (first_above (revision number height)) (block_of block.now)) }
{
    hostpath::hp_first_above(block, number, height)
}

#[unsafe(no_mangle)]
pub extern "C" fn hp_last_below(block: &[u8], number: u64, height: u64) -> Pair
    ensures { result ≡ pair_of (scanned (last_below (revision number height)) (block_of block.now)) }
{
    hostpath::hp_last_below(block, number, height)
}

#[unsafe(no_mangle)]
pub extern "C" fn hp_v2_read(key: &[u8]) -> Packet
    ensures { result ≡ packet_of (packet_in key.now) }
{
    hostpath::hp_v2_read(key)
}

#[unsafe(no_mangle)]
pub extern "C" fn hp_v2_write(kind: u8, client: &[u8], sequence: u64, out: &mut [u8]) -> Written
    ensures value { result ≡ answer (packet_wanted kind client.now sequence) (length out.old) }
    ensures out_after { out.new ≡ left (packet_wanted kind client.now sequence) out.old }
{
    hostpath::hp_v2_write(kind, client, sequence, out)
}

#[unsafe(no_mangle)]
pub extern "C" fn hp_client_state_prefix(out: &mut [u8]) -> Written
    ensures value { result ≡ answer (text (bytes "clients")) (length out.old) }
    ensures out_after { out.new ≡ left (text (bytes "clients")) out.old }
{
    hostpath::hp_client_state_prefix(out)
}

#[unsafe(no_mangle)]
pub extern "C" fn hp_client_state_leaf(out: &mut [u8]) -> Written
    ensures value { result ≡ answer (text (bytes "clientState")) (length out.old) }
    ensures out_after { out.new ≡ left (text (bytes "clientState")) out.old }
{
    hostpath::hp_client_state_leaf(out)
}

#[unsafe(no_mangle)]
pub extern "C" fn hp_consensus_state_parent(client: &[u8], out: &mut [u8]) -> Written
    ensures value { result ≡ answer (text_of consensus_parent (carried client.now [] 0 0)) (length out.old) }
    ensures out_after { out.new ≡ left (text_of consensus_parent (carried client.now [] 0 0)) out.old }
{
    hostpath::hp_consensus_state_parent(client, out)
}

#[unsafe(no_mangle)]
pub extern "C" fn hp_consensus_state_leaf(number: u64, height: u64, out: &mut [u8]) -> Written
    ensures value { result ≡ answer (text_of (consensus_leaf []) (carried [] [] number height)) (length out.old) }
    ensures out_after { out.new ≡ left (text_of (consensus_leaf []) (carried [] [] number height)) out.old }
{
    hostpath::hp_consensus_state_leaf(number, height, out)
}

#[unsafe(no_mangle)]
pub extern "C" fn hp_update_time_leaf(number: u64, height: u64, out: &mut [u8]) -> Written
    ensures value { result ≡ answer (text_of (consensus_leaf (word (bytes "processedTime") ∷ [])) (carried [] [] number height)) (length out.old) }
    ensures out_after { out.new ≡ left (text_of (consensus_leaf (word (bytes "processedTime") ∷ [])) (carried [] [] number height)) out.old }
{
    hostpath::hp_update_time_leaf(number, height, out)
}

#[unsafe(no_mangle)]
pub extern "C" fn hp_update_height_leaf(number: u64, height: u64, out: &mut [u8]) -> Written
    ensures value { result ≡ answer (text_of (consensus_leaf (word (bytes "processedHeight") ∷ [])) (carried [] [] number height)) (length out.old) }
    ensures out_after { out.new ≡ left (text_of (consensus_leaf (word (bytes "processedHeight") ∷ [])) (carried [] [] number height)) out.old }
{
    hostpath::hp_update_height_leaf(number, height, out)
}

#[unsafe(no_mangle)]
pub extern "C" fn hp_connection_prefix(out: &mut [u8]) -> Written
    ensures value { result ≡ answer (text (bytes "connections")) (length out.old) }
    ensures out_after { out.new ≡ left (text (bytes "connections")) out.old }
{
    hostpath::hp_connection_prefix(out)
}

#[unsafe(no_mangle)]
pub extern "C" fn hp_channel_end_prefix(out: &mut [u8]) -> Written
    ensures value { result ≡ answer (text (bytes "channelEnds")) (length out.old) }
    ensures out_after { out.new ≡ left (text (bytes "channelEnds")) out.old }
{
    hostpath::hp_channel_end_prefix(out)
}

#[unsafe(no_mangle)]
pub extern "C" fn hp_commitments_path(port: &[u8], channel: &[u8], out: &mut [u8]) -> Written
    ensures value { result ≡ answer (text_of (packets_path (bytes "commitments")) (carried port.now channel.now 0 0)) (length out.old) }
    ensures out_after { out.new ≡ left (text_of (packets_path (bytes "commitments")) (carried port.now channel.now 0 0)) out.old }
{
    hostpath::hp_commitments_path(port, channel, out)
}

#[unsafe(no_mangle)]
pub extern "C" fn hp_acks_path(port: &[u8], channel: &[u8], out: &mut [u8]) -> Written
    ensures value { result ≡ answer (text_of (packets_path (bytes "acks")) (carried port.now channel.now 0 0)) (length out.old) }
    ensures out_after { out.new ≡ left (text_of (packets_path (bytes "acks")) (carried port.now channel.now 0 0)) out.old }
{
    hostpath::hp_acks_path(port, channel, out)
}

#[unsafe(no_mangle)]
pub extern "C" fn hp_receipts_path(port: &[u8], channel: &[u8], out: &mut [u8]) -> Written
    ensures value { result ≡ answer (text_of (packets_path (bytes "receipts")) (carried port.now channel.now 0 0)) (length out.old) }
    ensures out_after { out.new ≡ left (text_of (packets_path (bytes "receipts")) (carried port.now channel.now 0 0)) out.old }
{
    hostpath::hp_receipts_path(port, channel, out)
}

#[unsafe(no_mangle)]
pub extern "C" fn hp_commitment_prefix(out: &mut [u8]) -> Written
    ensures value { result ≡ answer (text (bytes "commitments")) (length out.old) }
    ensures out_after { out.new ≡ left (text (bytes "commitments")) out.old }
{
    hostpath::hp_commitment_prefix(out)
}

#[unsafe(no_mangle)]
pub extern "C" fn hp_ack_prefix(out: &mut [u8]) -> Written
    ensures value { result ≡ answer (text (bytes "acks")) (length out.old) }
    ensures out_after { out.new ≡ left (text (bytes "acks")) out.old }
{
    hostpath::hp_ack_prefix(out)
}

#[unsafe(no_mangle)]
pub extern "C" fn hp_receipt_prefix(out: &mut [u8]) -> Written
    ensures value { result ≡ answer (text (bytes "receipts")) (length out.old) }
    ensures out_after { out.new ≡ left (text (bytes "receipts")) out.old }
{
    hostpath::hp_receipt_prefix(out)
}

#[unsafe(no_mangle)]
pub extern "C" fn hp_wide_validate_identifier_chars(id: &[u8]) -> u8
    ensures { result ≡ chars_in wide id.now }
{
    hostpath::hp_wide_validate_identifier_chars(id)
}

#[unsafe(no_mangle)]
pub extern "C" fn hp_wide_validate_identifier_length(id: &[u8], min: u64, max: u64) -> u8
    ensures { result ≡ length_in wide id.now min max }
{
    hostpath::hp_wide_validate_identifier_length(id, min, max)
}

#[unsafe(no_mangle)]
pub extern "C" fn hp_wide_validate_prefix_length(prefix: &[u8], min: u64, max: u64) -> u8
    ensures { result ≡ prefix_length_in wide prefix.now min max }
{
    hostpath::hp_wide_validate_prefix_length(prefix, min, max)
}

#[unsafe(no_mangle)]
pub extern "C" fn hp_wide_validate_named_u64_index(id: &[u8], name: &[u8]) -> Fault
    ensures { result ≡ named_index_fault_in wide id.now name.now }
{
    hostpath::hp_wide_validate_named_u64_index(id, name)
}

#[unsafe(no_mangle)]
pub extern "C" fn hp_wide_validate_client_type(id: &[u8]) -> u8
    ensures { result ≡ check_in wide client_type id.now }
{
    hostpath::hp_wide_validate_client_type(id)
}

#[unsafe(no_mangle)]
pub extern "C" fn hp_wide_validate_client_identifier(id: &[u8]) -> u8
    ensures { result ≡ check_in wide client id.now }
{
    hostpath::hp_wide_validate_client_identifier(id)
}

#[unsafe(no_mangle)]
pub extern "C" fn hp_wide_validate_connection_identifier(id: &[u8]) -> Fault
    ensures { result ≡ fault_in wide connection id.now }
{
    hostpath::hp_wide_validate_connection_identifier(id)
}

#[unsafe(no_mangle)]
pub extern "C" fn hp_wide_validate_port_identifier(id: &[u8]) -> u8
    ensures { result ≡ check_in wide port id.now }
{
    hostpath::hp_wide_validate_port_identifier(id)
}

#[unsafe(no_mangle)]
pub extern "C" fn hp_wide_validate_channel_identifier(id: &[u8]) -> Fault
    ensures { result ≡ fault_in wide channel id.now }
{
    hostpath::hp_wide_validate_channel_identifier(id)
}

#[unsafe(no_mangle)]
pub extern "C" fn hp_wide_client_id_new(client_type: &[u8], counter: u64, out: &mut [u8]) -> Written
    ensures value { result ≡ answer (new_client_in wide client_type.now counter) (length out.old) }
    ensures out_after { out.new ≡ left (new_client_in wide client_type.now counter) out.old }
{
    hostpath::hp_wide_client_id_new(client_type, counter, out)
}

#[unsafe(no_mangle)]
pub extern "C" fn hp_wide_read(text: &[u8], out: &mut [u8]) -> Fault
    ensures value { result ≡ read_fault_in wide text.now (length out.old) }
    ensures out_after { out.new ≡ left (reading_bytes_in wide text.now) out.old }
{
    hostpath::hp_wide_read(text, out)
}

#[unsafe(no_mangle)]
pub extern "C" fn hp_wide_key(text: &[u8], out: &mut [u8]) -> Written
    ensures value { result ≡ answer (key_in wide text.now) (length out.old) }
    ensures out_after { out.new ≡ left (key_in wide text.now) out.old }
{
    hostpath::hp_wide_key(text, out)
}

#[unsafe(no_mangle)]
pub extern "C" fn hp_wide_render(
    kind: u8,
    first: &[u8],
    second: &[u8],
    a: u64,
    b: u64,
    out: &mut [u8],
) -> Written
    ensures value { result ≡ answer (render_in wide kind (carried first.now second.now a b)) (length out.old) }
    ensures out_after { out.new ≡ left (render_in wide kind (carried first.now second.now a b)) out.old }
{
    hostpath::hp_wide_render(kind, first, second, a, b, out)
}

#[unsafe(no_mangle)]
pub extern "C" fn hp_wide_consensus_state_parent(client: &[u8], out: &mut [u8]) -> Written
    ensures value { result ≡ answer (text_in wide consensus_parent (carried client.now [] 0 0)) (length out.old) }
    ensures out_after { out.new ≡ left (text_in wide consensus_parent (carried client.now [] 0 0)) out.old }
{
    hostpath::hp_wide_consensus_state_parent(client, out)
}

#[unsafe(no_mangle)]
pub extern "C" fn hp_wide_commitments_path(port: &[u8], channel: &[u8], out: &mut [u8]) -> Written
    ensures value { result ≡ answer (text_in wide (packets_path (bytes "commitments")) (carried port.now channel.now 0 0)) (length out.old) }
    ensures out_after { out.new ≡ left (text_in wide (packets_path (bytes "commitments")) (carried port.now channel.now 0 0)) out.old }
{
    hostpath::hp_wide_commitments_path(port, channel, out)
}

#[unsafe(no_mangle)]
pub extern "C" fn hp_wide_acks_path(port: &[u8], channel: &[u8], out: &mut [u8]) -> Written
    ensures value { result ≡ answer (text_in wide (packets_path (bytes "acks")) (carried port.now channel.now 0 0)) (length out.old) }
    ensures out_after { out.new ≡ left (text_in wide (packets_path (bytes "acks")) (carried port.now channel.now 0 0)) out.old }
{
    hostpath::hp_wide_acks_path(port, channel, out)
}

#[unsafe(no_mangle)]
pub extern "C" fn hp_wide_receipts_path(port: &[u8], channel: &[u8], out: &mut [u8]) -> Written
    ensures value { result ≡ answer (text_in wide (packets_path (bytes "receipts")) (carried port.now channel.now 0 0)) (length out.old) }
    ensures out_after { out.new ≡ left (text_in wide (packets_path (bytes "receipts")) (carried port.now channel.now 0 0)) out.old }
{
    hostpath::hp_wide_receipts_path(port, channel, out)
}

#[unsafe(no_mangle)]
pub extern "C" fn hp_book_new(book: &mut [u8], quota1: u16, quota2: u16) -> u8
    ensures { Made Current (quotas quota1 quota2) book.old result book.new }
{
    hostpath::hp_book_new(book, quota1, quota2)
}

#[unsafe(no_mangle)]
pub extern "C" fn hp_book_write(book: &mut [u8], owner: u8, text: &[u8], value: &[u8]) -> u8
    ensures { Recorded Current Plain book.old owner text.now value.now result book.new }
{
    hostpath::hp_book_write(book, owner, text, value)
}

#[unsafe(no_mangle)]
pub extern "C" fn hp_book_remove(book: &mut [u8], owner: u8, text: &[u8]) -> u8
    ensures { Removed Current Plain book.old owner text.now result book.new }
{
    hostpath::hp_book_remove(book, owner, text)
}

#[unsafe(no_mangle)]
pub extern "C" fn hp_book_lookup(book: &[u8], owner: u8, text: &[u8], out: &mut [u8]) -> Written
    ensures { Looked Current Plain book.now owner text.now out.old result out.new }
{
    hostpath::hp_book_lookup(book, owner, text, out)
}

#[unsafe(no_mangle)]
pub extern "C" fn hp_book_write_lenient(book: &mut [u8], owner: u8, text: &[u8], value: &[u8]) -> u8
    ensures { Recorded Current Lenient book.old owner text.now value.now result book.new }
{
    hostpath::hp_book_write_lenient(book, owner, text, value)
}

#[unsafe(no_mangle)]
pub extern "C" fn hp_book_remove_lenient(book: &mut [u8], owner: u8, text: &[u8]) -> u8
    ensures { Removed Current Lenient book.old owner text.now result book.new }
{
    hostpath::hp_book_remove_lenient(book, owner, text)
}

#[unsafe(no_mangle)]
pub extern "C" fn hp_book_lookup_lenient(
    book: &[u8],
    owner: u8,
    text: &[u8],
    out: &mut [u8],
) -> Written
    ensures { Looked Current Lenient book.now owner text.now out.old result out.new }
{
    hostpath::hp_book_lookup_lenient(book, owner, text, out)
}

#[unsafe(no_mangle)]
pub extern "C" fn hp_book_oldest(book: &[u8], owner: u8, client: &[u8]) -> Pair
    ensures { Oldest Current book.now owner client.now result }
{
    hostpath::hp_book_oldest(book, owner, client)
}

#[unsafe(no_mangle)]
pub extern "C" fn hp_book_clear(book: &mut [u8], owner: u8, client: &[u8], keep: u64) -> Count
    ensures { Cleared Current book.old owner client.now keep result book.new }
{
    hostpath::hp_book_clear(book, owner, client, keep)
}

#[unsafe(no_mangle)]
pub extern "C" fn hp_book_convert(old: &[u8], book: &mut [u8]) -> u8
    ensures { Converted old.now book.old result book.new }
{
    hostpath::hp_book_convert(old, book)
}

#[unsafe(no_mangle)]
pub extern "C" fn hp_book_convert_owners(
    old: &[u8],
    book: &mut [u8],
    quota1: u16,
    quota2: u16,
) -> u8
    ensures { ConvertedOwners old.now book.old (quotas quota1 quota2) result book.new }
{
    hostpath::hp_book_convert_owners(old, book, quota1, quota2)
}

#[unsafe(no_mangle)]
pub extern "C" fn hp_book_fill(book: &[u8], table: &mut [u8]) -> u8
    ensures { Fills Current book.now table.old result table.new }
{
    hostpath::hp_book_fill(book, table)
}

#[unsafe(no_mangle)]
pub extern "C" fn hp_book_lookup_many(
    book: &[u8],
    owner: u8,
    table: &[u8],
    texts: &[u8],
    out: &mut [u8],
) -> Written
    ensures { LooksMany Current book.now owner table.now texts.now out.old result out.new }
{
    hostpath::hp_book_lookup_many(book, owner, table, texts, out)
}

#[unsafe(no_mangle)]
pub extern "C" fn hp_refusal_text(number: u8, out: &mut [u8]) -> Written
    ensures value { result ≡ answer (text (sentence number)) (length out.old) }
    ensures out_after { out.new ≡ left (text (sentence number)) out.old }
{
    hostpath::hp_refusal_text(number, out)
}
// Above, made by bin/interface.
