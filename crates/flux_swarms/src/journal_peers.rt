//! The peers of a hash.

ghost use Rattle.std.specs.Prelude.{◌≡◌, IfOk, OnOk};
ghost use Rattle.std.specs.List.{slice_get};
ghost use Rattle.nodes_tracker.specs.Swarms.{without};
ghost use Rattle.nodes_tracker.specs.Calls.{moved};
ghost use Rattle.flux_swarms.specs.Asked.{is_swarm_body, is_swarm_node, is_good, asked_in, of_hash};
ghost use Rattle.flux_swarms.specs.Peers.{ArePeersOf};
ghost use Rattle.flux_swarms.specs.InTheCell.{AreInTheCell};
ghost use Rattle.flux_swarms.specs.steps.Moves.{moved_on, swarm_by};

use flow_model::{Entry, Event, Journal};
use flux_library::Library;
use flux_model::{Body, NodeNo, Program};
use flux_values::{Bytes, CallResult, List, Memory, Value};
use nodes_tracker::{Peer, put_in, take_out};
use std::alloc::Global;

/// The peers whose last good `Swarm` call for a hash isn't `stopped`, each with that call's number left, in bytewise
/// order. The library is asked for nothing: where `swarms` is `Tracker`'s and calls are right, they are the swarm in the
/// cell by what it means.
pub fn peers<L: Library>(
    alloc: Global,
    program: &Program,
    journal: &Journal,
    library: &L,
    hash: &[u8],
) -> Result<List<Peer>, Memory>
    ensures last { IfOk result (ArePeersOf program.now journal.now.entries hash.now) }
    ensures cell { IfOk result
        (AreInTheCell (L.meaning library.now) program.now journal.now.entries hash.now) }
{
    listed(
        alloc,
        swarm_by(alloc, program, journal.entries.as_slice(), hash)?,
    )
}

/// The swarm of a hash, as the good `Swarm` calls of some entries move it.
fn swarm_by(
    alloc: Global,
    program: &Program,
    entries: &[Entry],
    hash: &[u8],
) -> Result<Vec<Peer>, Memory>
    ensures { IfOk result (λ swarm. swarm.items ≡ swarm_by program.now hash.now entries.now) }
{
    let mut swarm = Vec::new(alloc);
    for entry in entries {
        follow(alloc, &mut swarm, program, &entry.event, hash)?;
    }
    Ok(swarm)
}

/// Moves a swarm as an event does.
fn follow(
    alloc: Global,
    swarm: &mut Vec<Peer>,
    program: &Program,
    event: &Event,
    hash: &[u8],
) -> Result<(), Memory>
    ensures { OnOk result (swarm.new.items ≡
        moved_on swarm.old.items (of_hash hash.now (asked_in program.now event.now))) }
{
    let Event::Call(made) = event else {
        return Ok(());
    };
    if !is_swarm_node(program, made.node) || !is_good(&made.answer.as_answer().result) {
        return Ok(());
    }
    match made.args.as_slice() {
        [
            Value::Text(action),
            Value::Text(its),
            Value::Text(peer),
            Value::Int(left),
        ] if its.as_bytes() == hash => {
            set(alloc, swarm, action.as_bytes(), peer.as_bytes(), *left)
        }
        _ => Ok(()),
    }
}

/// Sets a peer's number left, or takes the peer out where it has stopped.
fn set(
    alloc: Global,
    swarm: &mut Vec<Peer>,
    action: &[u8],
    address: &[u8],
    left: i64,
) -> Result<(), Memory>
    ensures { OnOk result (swarm.new.items ≡
        moved action.now (record { address = address.now; left = left }) (without address.now swarm.old.items)) }
{
    take_out(swarm, address);
    if action == b"stopped".as_slice() {
        return Ok(());
    }
    let address = Bytes::copy(alloc, address)?;
    put_in(swarm, Peer { address, left })
}

fn is_swarm_node(program: &Program, number: NodeNo) -> bool
    ensures { result ≡ is_swarm_node (slice_get program.now.nodes number.0) }
{
    match program.nodes.get(number.0 as usize) {
        Some(node) => is_swarm_body(&node.body),
        None => false,
    }
}

fn is_swarm_body(body: &Body) -> bool
    ensures { result ≡ is_swarm_body body.now }
{
    match body {
        Body::Concrete(name) => name.as_bytes() == b"Swarm".as_slice(),
        Body::Abstract(_) => false,
    }
}

fn is_good(made: &CallResult) -> bool
    ensures { result ≡ is_good made.now }
{
    match made {
        CallResult::Good(_) => true,
        CallResult::Bad(_) => false,
    }
}

/// Peers as a list.
fn listed(alloc: Global, swarm: Vec<Peer>) -> Result<List<Peer>, Memory>
    ensures { IfOk result (λ peers. peers ≡ swarm.items) }
{
    let mut peers = List::new(alloc);
    for peer in swarm {
        peers.add(peer)?;
    }
    Ok(peers)
}
