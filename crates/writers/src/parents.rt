// The writers of the texts that are no whole path: parents, leaves and the paths of packets.
ghost use Rattle.std.specs.Prelude.{◌+◌, ◌≤◌, length};
ghost use Rattle.text.specs.Put.{Wrote};
ghost use Rattle.writers.specs.Texts.{parent_text, leaf_text, packets_text};

use crate::pieces::{put_text, write_client, write_ends, write_revision};

// `clients/C/consensusStates`.
pub fn write_consensus_parent(out: &mut [u8], at: usize, client: &[u8]) -> usize
    requires { at + length (parent_text client.now) ≤ length out.old }
    ensures { Wrote out.old at (parent_text client.now) result out.new }
{
    write_client(out, at, client, b"/consensusStates")
}

// `consensusStates/R-h`, and what stands after it.
pub fn write_consensus_leaf(
    out: &mut [u8],
    at: usize,
    number: u64,
    height: u64,
    rest: &[u8],
) -> usize
    requires { at + length (leaf_text number height rest.now) ≤ length out.old }
    ensures { Wrote out.old at (leaf_text number height rest.now) result out.new }
{
    let next = put_text(out, at, b"consensusStates/");
    write_revision(out, next, number, height, rest)
}

// `ports/P/channels/H/sequences` after the first component; `first` is that component and `/ports/`.
pub fn write_packets_path(
    out: &mut [u8],
    at: usize,
    first: &[u8],
    port: &[u8],
    channel: &[u8],
) -> usize
    requires { at + length (packets_text first.now port.now channel.now) ≤ length out.old }
    ensures { Wrote out.old at (packets_text first.now port.now channel.now) result out.new }
{
    let next = write_ends(out, at, first, port, channel);
    put_text(out, next, b"/sequences")
}
