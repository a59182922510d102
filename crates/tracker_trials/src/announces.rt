//! Many calls on one swarm, for the bench.

use crate::calls::{PEERS, address_of, args_of, cell_with, swarm_of};
use crate::rows::{HASH, Held};
use bencoding::{Ben, BenFault, print_ben, read_ben};
use flux_values::{Answer, Cell, Put, Value};
use nodes_tracker::{Node, read_swarm};
use std::alloc::Global;
use trial_ends::Trouble;

/// What the announce of the swarm's peer of a number is answered.
fn answer_to(alloc: Global, cell: &Cell, number: u32) -> Result<Answer, Trouble> {
    let peer = address_of(number % PEERS);
    let args = args_of(alloc, b"announce", HASH, &peer, i64::from(number % 7))?;
    let cells = [cell.copy()?];
    Ok(Node::Swarm.answer(alloc, args.as_slice(), cells.as_slice())?)
}

/// Keeps a text that is put. Tells how many bytes it has.
fn keep(alloc: Global, cell: &mut Cell, put: &Put) -> Result<usize, Trouble> {
    let Some(Value::Text(text)) = &put.value else {
        return Ok(0);
    };
    let kept = Value::Text(text.again(alloc)?);
    cell.put(put.name.again(alloc)?, Some(kept))?;
    Ok(text.as_bytes().len())
}

/// Keeps the texts that an answer puts. Tells how many bytes they have.
fn keep_all(alloc: Global, cell: &mut Cell, answer: &Answer) -> Result<usize, Trouble> {
    let mut bytes: usize = 0;
    for put in &answer.puts {
        bytes = bytes.saturating_add(keep(alloc, cell, put)?);
    }
    Ok(bytes)
}

fn announce_one(alloc: Global, cell: &mut Cell, number: u32) -> Result<usize, Trouble> {
    let answer = answer_to(alloc, cell, number)?;
    keep_all(alloc, cell, &answer)
}

/// So many announces of the swarm's peers in turn, each with what the one before has put. Tells how many bytes they
/// were answered and put.
pub fn announce(alloc: Global, count: u32) -> Result<usize, Trouble> {
    let mut cell = cell_with(alloc, Held::Peers(PEERS))?;
    let mut bytes: usize = 0;
    for number in 0..count {
        bytes = bytes.saturating_add(announce_one(alloc, &mut cell, number)?);
    }
    Ok(bytes)
}

fn read_one(alloc: Global, swarm: &[u8]) -> Result<usize, Trouble> {
    Ok(read_swarm(alloc, swarm)?.len())
}

/// So many readings of the swarm. Tells how many peers were read.
pub fn read(alloc: Global, count: u32) -> Result<usize, Trouble> {
    let swarm = swarm_of(alloc, PEERS)?;
    let mut peers: usize = 0;
    for _ in 0..count {
        peers = peers.saturating_add(read_one(alloc, swarm.as_slice())?);
    }
    Ok(peers)
}

/// The dictionary that keeps a swarm of the greatest size.
fn full_swarm(alloc: Global) -> Result<Ben, Trouble> {
    let swarm = swarm_of(alloc, PEERS)?;
    match read_ben(alloc, swarm.as_slice()) {
        Ok((value, _)) => Ok(value),
        Err(BenFault::BadBen { .. }) => Err(Trouble::Wrong),
        Err(BenFault::Memory) => Err(Trouble::Memory),
    }
}

fn print_one(alloc: Global, value: &Ben) -> Result<usize, Trouble> {
    Ok(print_ben(alloc, value)?.as_bytes().len())
}

/// So many printings of the dictionary that keeps the swarm. Tells how many bytes were printed.
pub fn print(alloc: Global, count: u32) -> Result<usize, Trouble> {
    let value = full_swarm(alloc)?;
    let mut bytes: usize = 0;
    for _ in 0..count {
        bytes = bytes.saturating_add(print_one(alloc, &value)?);
    }
    Ok(bytes)
}
