//! The dictionaries that the tracker answers.

ghost use Rattle.std.specs.Prelude.{◌≡◌, ◌≤◌, IfOk, length, take};
ghost use Rattle.bencoding.specs.declared.values.Ben.TheVariants as bens;
ghost use Rattle.bencoding.specs.Views.{tree_of};
ghost use Rattle.nodes_tracker.specs.Replies as replies;
ghost use Rattle.nodes_tracker.specs.declared.peers.TheConstants.{PEER_LIMIT};
ghost use Rattle.nodes_tracker.specs.declared.replies.TheConstants.{SHOWN_LIMIT};

use crate::peers::Peer;
use bencoding::{Ben, Field};
use flux_values::{Bytes, Memory};
use std::alloc::Global;

/// The most peers that an answer shows.
pub const SHOWN_LIMIT: usize = 50;

/// The answer to an announce, by the swarm and the bytes of the peers that are shown.
pub fn announce_reply(alloc: Global, swarm: &[Peer], shown: Bytes) -> Result<Ben, Memory>
    requires { length swarm.now ≤ PEER_LIMIT }
    ensures { IfOk result (λ reply. tree_of reply ≡ replies.announce_reply swarm.now shown) }
{
    let done = complete(swarm);
    let mut fields = Vec::new(alloc);
    fields.push(counted(alloc, b"complete", done as i64)?)?;
    fields.push(counted(alloc, b"incomplete", (swarm.len() - done) as i64)?)?;
    fields.push(counted(alloc, b"interval", 1800)?)?;
    fields.push(field(alloc, b"peers", Ben::Text(shown))?)?;
    Ok(Ben::Dict(fields))
}

/// The answer to a scrape.
pub fn scrape_reply(
    alloc: Global,
    hash: &[u8],
    swarm: &[Peer],
    completions: i64,
) -> Result<Ben, Memory>
    requires { length swarm.now ≤ PEER_LIMIT }
    ensures { IfOk result (λ reply. tree_of reply ≡
        replies.scrape_reply hash.now swarm.now completions) }
{
    let done = complete(swarm);
    let mut fields = Vec::new(alloc);
    fields.push(counted(alloc, b"complete", done as i64)?)?;
    fields.push(counted(alloc, b"downloaded", completions)?)?;
    fields.push(counted(alloc, b"incomplete", (swarm.len() - done) as i64)?)?;
    let file = alone(alloc, hash, Ben::Dict(fields))?;
    alone(alloc, b"files", file)
}

/// A dictionary of one field.
fn alone(alloc: Global, key: &[u8], value: Ben) -> Result<Ben, Memory>
    ensures { IfOk result (λ made. tree_of made ≡ replies.alone key.now (tree_of value)) }
{
    let mut fields = Vec::new(alloc);
    fields.push(field(alloc, key, value)?)?;
    Ok(Ben::Dict(fields))
}

fn field(alloc: Global, key: &[u8], value: Ben) -> Result<Field<Ben>, Memory>
    ensures { IfOk result (λ made. made ≡ record { key = key.now; value = value }) }
{
    let key = Bytes::copy(alloc, key)?;
    Ok(Field { key, value })
}

/// A number under a key.
fn counted(alloc: Global, key: &[u8], count: i64) -> Result<Field<Ben>, Memory>
    ensures { IfOk result (λ made. made ≡ record { key = key.now; value = bens.Int count }) }
{
    field(alloc, key, Ben::Int(count))
}

/// How many peers have nothing left.
fn complete(swarm: &[Peer]) -> usize
    ensures same { result ≡ replies.complete swarm.now }
    ensures within { result ≤ length swarm.now }
{
    let mut count = 0;
    for peer in swarm {
        if is_done(peer.left) {
            count += 1;
        }
    }
    count
}

fn is_done(left: i64) -> bool
    ensures { result ≡ replies.is_done left }
{
    left == 0
}

/// The first 50 of some peers, joined.
pub fn joined(alloc: Global, peers: &[Peer]) -> Result<Bytes, Memory>
    ensures { IfOk result (λ joined. joined ≡ replies.joined peers.now) }
{
    let mut joined = Bytes::new(alloc);
    for peer in shown(peers) {
        joined.append(peer.address.as_bytes())?;
    }
    Ok(joined)
}

/// The first 50 of some peers, or all.
fn shown(peers: &[Peer]) -> &[Peer]
    ensures { result.now ≡ take SHOWN_LIMIT peers.now }
{
    if SHOWN_LIMIT < peers.len() {
        &peers[..SHOWN_LIMIT]
    } else {
        peers
    }
}
