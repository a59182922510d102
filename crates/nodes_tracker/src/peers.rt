//! Swarms: peers in bytewise order, read from the text that keeps them, and changed.

ghost use Rattle.std.specs.Prelude.{◌≡◌, ◌≤◌, IfOk, OnOk, length, map, option_map};
ghost use Rattle.std.specs.List.{prefix_len};
ghost use Rattle.bencoding.specs.Views.{tree_of};
ghost use Rattle.bencoding.specs.Trees.{dictionary};
ghost use Rattle.nodes_tracker.specs.Swarms as swarms;
ghost use Rattle.bencoding.specs.steps.Printed.{fields_view};
ghost use Rattle.nodes_tracker.specs.steps.Fields.{AreFieldsOf, AreFieldsRead, numbered, tree_peer, tree_peers};

use bencoding::{Ben, BenFault, Field, read_ben};
use flux_values::{Bytes, Memory};
use std::alloc::Global;

/// The most peers of a swarm.
pub const PEER_LIMIT: usize = 1000;

/// A peer of a swarm: four bytes of address and two of port, and how much it has left.
#[derive(Drop)]
pub struct Peer {
    pub address: Bytes,
    pub left: i64,
}

/// The swarm that a text keeps. One that keeps none counts as empty.
pub fn read_swarm(alloc: Global, text: &[u8]) -> Result<Vec<Peer>, Memory>
    ensures { IfOk result (λ peers. peers.items ≡ swarms.swarm_of_text text.now) }
{
    let Some(fields) = read_fields(alloc, text)? else {
        return Ok(Vec::new(alloc));
    };
    let Some(peers) = all_peers(alloc, fields)? else {
        return Ok(Vec::new(alloc));
    };
    if peers.len() > PEER_LIMIT {
        return Ok(Vec::new(alloc));
    }
    Ok(peers)
}

/// The fields of the dictionary that a text is.
fn read_fields(alloc: Global, text: &[u8]) -> Result<Option<Vec<Field<Ben>>>, Memory>
    ensures { IfOk result (λ fields. AreFieldsRead text.now fields) }
{
    let (value, length) = match read_ben(alloc, text) {
        Ok(read) => read,
        Err(BenFault::BadBen { .. }) => return Ok(None),
        Err(BenFault::Memory) => return Err(Memory),
    };
    if length != text.len() {
        return Ok(None);
    }
    Ok(fields_in(value))
}

fn fields_in(value: Ben) -> Option<Vec<Field<Ben>>>
    ensures { AreFieldsOf (tree_of value) result }
{
    match value {
        Ben::Dict(fields) => Some(fields),
        Ben::Int(_) => None,
        Ben::Text(_) => None,
        Ben::Items(_) => None,
    }
}

/// The peers of fields, where each is one.
fn all_peers(alloc: Global, fields: Vec<Field<Ben>>) -> Result<Option<Vec<Peer>>, Memory>
    ensures { IfOk result (λ peers. option_map (λ v. v.items) peers ≡
        tree_peers (fields_view fields.items)) }
{
    let mut peers = Vec::new(alloc);
    for field in fields {
        match peer_of(field) {
            Some(peer) => peers.push(peer)?,
            None => return Ok(None),
        }
    }
    Ok(Some(peers))
}

fn peer_of(field: Field<Ben>) -> Option<Peer>
    ensures { result ≡ tree_peer field.key (tree_of field.value) }
{
    let Field { key, value } = field;
    match value {
        Ben::Int(left) => numbered(key, left),
        Ben::Text(_) => None,
        Ben::Items(_) => None,
        Ben::Dict(_) => None,
    }
}

/// A number under a key of six bytes is a peer, where it isn't negative.
fn numbered(key: Bytes, left: i64) -> Option<Peer>
    ensures { result ≡ numbered key left }
{
    if key.as_bytes().len() == 6 && left >= 0 {
        Some(Peer { address: key, left })
    } else {
        None
    }
}

/// The dictionary that keeps a swarm.
pub fn dictionary_of(alloc: Global, peers: Vec<Peer>) -> Result<Ben, Memory>
    ensures { IfOk result (λ kept. tree_of kept ≡ dictionary (swarms.fields_of peers.items)) }
{
    let mut fields = Vec::new(alloc);
    for peer in peers {
        fields.push(Field {
            key: peer.address,
            value: Ben::Int(peer.left),
        })?;
    }
    Ok(Ben::Dict(fields))
}

/// Takes a peer out, if it is there.
pub fn take_out(peers: &mut Vec<Peer>, address: &[u8])
    ensures { peers.new.items ≡ swarms.without address.now peers.old.items }
{
    peers.retain(|peer| peer.address.as_bytes() != address);
}

/// Puts a peer at its place in bytewise order.
pub fn put_in(peers: &mut Vec<Peer>, peer: Peer) -> Result<(), Memory>
    ensures { OnOk result (peers.new.items ≡ swarms.with_peer peer peers.old.items) }
{
    let place = place_of(peers, peer.address.as_bytes());
    Ok(peers.insert(place, peer)?)
}

/// How many peers are below an address, from the first one on.
fn place_of(peers: &[Peer], address: &[u8]) -> usize
    ensures within { result ≤ length peers.now }
    ensures place { result ≡ prefix_len (λ p. swarms.is_below p.address address.now) peers.now }
{
    for (place, peer) in peers.iter().enumerate() {
        if !is_below(peer.address.as_bytes(), address) {
            return place;
        }
    }
    peers.len()
}

fn is_below(one: &[u8], other: &[u8]) -> bool
    ensures { result ≡ swarms.is_below one.now other.now }
{
    one.cmp(other).is_lt()
}
