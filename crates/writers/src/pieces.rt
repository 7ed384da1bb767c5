// The writers of some of the components. Literals have their slashes, so that few copies are made.
ghost use Rattle.std.specs.Prelude.{◌++◌, ◌+◌, ◌≤◌, length};
ghost use Rattle.text.specs.Number.{decimal};
ghost use Rattle.text.specs.Put.{Wrote};
ghost use Rattle.writers.specs.Texts.{revision, client_text, consensus_text, ends_text, packet_text, upgrade_text};

// The copies of `text`, with the contract that all writers have.
pub(crate) fn put_text(out: &mut [u8], at: usize, src: &[u8]) -> usize
    requires { at + length src.now ≤ length out.old }
    ensures { Wrote out.old at src.now result out.new }
{
    text::put::write_text(out, at, src)
}

fn put_number(out: &mut [u8], at: usize, n: u64) -> usize
    requires { at + length (decimal n) ≤ length out.old }
    ensures { Wrote out.old at (decimal n) result out.new }
{
    text::write_number(out, at, n)
}

// Two texts.
pub(crate) fn write_two(out: &mut [u8], at: usize, first: &[u8], second: &[u8]) -> usize
    requires { at + length (first.now ++ second.now) ≤ length out.old }
    ensures { Wrote out.old at (first.now ++ second.now) result out.new }
{
    let next = put_text(out, at, first);
    put_text(out, next, second)
}

// `clients/C`, and what stands after it.
pub(crate) fn write_client(out: &mut [u8], at: usize, client: &[u8], rest: &[u8]) -> usize
    requires { at + length (client_text client.now rest.now) ≤ length out.old }
    ensures { Wrote out.old at (client_text client.now rest.now) result out.new }
{
    let name = put_text(out, at, b"clients/");
    write_two(out, name, client, rest)
}

// `R-h`, and what stands after it.
pub(crate) fn write_revision(
    out: &mut [u8],
    at: usize,
    number: u64,
    height: u64,
    rest: &[u8],
) -> usize
    requires { at + length (revision number height rest.now) ≤ length out.old }
    ensures { Wrote out.old at (revision number height rest.now) result out.new }
{
    let dash = put_number(out, at, number);
    let next = put_text(out, dash, b"-");
    let last = put_number(out, next, height);
    put_text(out, last, rest)
}

// `clients/C/consensusStates/R-h`, and what stands after it.
pub(crate) fn write_consensus(
    out: &mut [u8],
    at: usize,
    client: &[u8],
    number: u64,
    height: u64,
    rest: &[u8],
) -> usize
    requires { at + length (consensus_text client.now number height rest.now) ≤ length out.old }
    ensures { Wrote out.old at (consensus_text client.now number height rest.now) result out.new }
{
    let next = write_client(out, at, client, b"/consensusStates/");
    write_revision(out, next, number, height, rest)
}

// `ports/P/channels/H` after the first component; `first` is that component and `/ports/`.
pub(crate) fn write_ends(
    out: &mut [u8],
    at: usize,
    first: &[u8],
    port: &[u8],
    channel: &[u8],
) -> usize
    requires { at + length (ends_text first.now port.now channel.now) ≤ length out.old }
    ensures { Wrote out.old at (ends_text first.now port.now channel.now) result out.new }
{
    let next = write_two(out, at, first, port);
    write_two(out, next, b"/channels/", channel)
}

// `ports/P/channels/H/sequences/S` after the first component.
pub(crate) fn write_packet(
    out: &mut [u8],
    at: usize,
    first: &[u8],
    port: &[u8],
    channel: &[u8],
    sequence: u64,
) -> usize
    requires { at + length (packet_text first.now port.now channel.now sequence) ≤ length out.old }
    ensures { Wrote out.old at (packet_text first.now port.now channel.now sequence) result out.new }
{
    let next = write_ends(out, at, first, port, channel);
    let number = put_text(out, next, b"/sequences/");
    put_number(out, number, sequence)
}

// `U/n`, and what stands after it.
pub(crate) fn write_upgrade(
    out: &mut [u8],
    at: usize,
    upgrade: &[u8],
    height: u64,
    rest: &[u8],
) -> usize
    requires { at + length (upgrade_text upgrade.now height rest.now) ≤ length out.old }
    ensures { Wrote out.old at (upgrade_text upgrade.now height rest.now) result out.new }
{
    let next = write_two(out, at, upgrade, b"/");
    let last = put_number(out, next, height);
    put_text(out, last, rest)
}
