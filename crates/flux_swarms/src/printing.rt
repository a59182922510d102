//! The lines of a swarm.

ghost use Rattle.std.specs.Prelude.{◌≡◌, ◌++◌, IfOk, OnOk};
ghost use Rattle.std.specs.List.{flat_map};
ghost use Rattle.flux_swarms.specs.Printed.{dotted, port_of, printed_address, printed_peer, printed_swarm};

use flux_spelling::{append_number, append_value};
use flux_values::{Bytes, Memory, Value};
use nodes_tracker::Peer;
use std::alloc::Global;

/// The line of how many peers there are, and a line for each.
pub fn print_peers(alloc: Global, peers: &[Peer]) -> Result<Bytes, Memory>
    ensures { IfOk result (λ text. text ≡ printed_swarm peers.now) }
{
    let mut out = Bytes::new(alloc);
    out.append(b"peers ")?;
    append_number(alloc, &mut out, peers.len() as u64)?;
    out.append(b"\n")?;
    append_peers(alloc, &mut out, peers)?;
    Ok(out)
}

fn append_peers(alloc: Global, out: &mut Bytes, peers: &[Peer]) -> Result<(), Memory>
    ensures { OnOk result (out.new ≡ out.old ++ flat_map printed_peer peers.now) }
{
    for peer in peers {
        append_peer(alloc, out, peer)?;
    }
    Ok(())
}

fn append_peer(alloc: Global, out: &mut Bytes, peer: &Peer) -> Result<(), Memory>
    ensures { OnOk result (out.new ≡ out.old ++ printed_peer peer.now) }
{
    append_address(alloc, out, peer.address.as_bytes())?;
    out.append(b" ")?;
    append_value(alloc, out, &Value::Int(peer.left))?;
    out.append(b"\n")
}

fn append_address(alloc: Global, out: &mut Bytes, address: &[u8]) -> Result<(), Memory>
    ensures { OnOk result (out.new ≡ out.old ++ printed_address address.now) }
{
    match address {
        [first, second, third, fourth, high, low] => {
            append_dotted(alloc, out, *first, *second, *third, *fourth)?;
            append_port(alloc, out, *high, *low)
        }
        _ => Ok(()),
    }
}

/// Adds four numbers with dots between them.
fn append_dotted(
    alloc: Global,
    out: &mut Bytes,
    first: u8,
    second: u8,
    third: u8,
    fourth: u8,
) -> Result<(), Memory>
    ensures { OnOk result (out.new ≡ out.old ++ dotted first second third fourth) }
{
    append_number(alloc, out, u64::from(first))?;
    out.append(b".")?;
    append_number(alloc, out, u64::from(second))?;
    out.append(b".")?;
    append_number(alloc, out, u64::from(third))?;
    out.append(b".")?;
    append_number(alloc, out, u64::from(fourth))
}

/// Adds the number of two bytes, of which the first counts 256, after a colon.
fn append_port(alloc: Global, out: &mut Bytes, high: u8, low: u8) -> Result<(), Memory>
    ensures { OnOk result (out.new ≡ out.old ++ port_of high low) }
{
    out.append(b":")?;
    append_number(alloc, out, 256 * u64::from(high) + u64::from(low))
}
