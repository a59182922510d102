//! What a client asks in a line.

ghost use Rattle.std.specs.Prelude.{◌≡◌, ◌≤◌, IfOk, IfSome, length, option_map};
ghost use Rattle.flux_values.specs.declared.texts.TheConstants.{TEXT_LIMIT};
ghost use Rattle.nodes_tracker.specs.Asks as asks;

use crate::addresses::read_peer;
use crate::hashes::read_hash;
use crate::pieces::{cut, number};
use flux_library::answers::word;
use flux_values::{Memory, TextBytes};
use std::alloc::Global;

/// What an ask says.
#[derive(Drop)]
pub struct Ask {
    pub action: TextBytes,
    pub hash: TextBytes,
    pub peer: TextBytes,
    pub left: i64,
}

/// The ask of a line: `announce HASH A.B.C.D:PORT LEFT EVENT` or `scrape HASH`.
pub fn read_ask(alloc: Global, line: &[u8]) -> Result<Option<Ask>, Memory>
    ensures { IfOk result (λ ask. ask ≡ asks.ask_of line.now) }
{
    let (verb, rest) = cut(line, b' ');
    if verb == b"announce".as_slice() {
        read_announce(alloc, rest)
    } else if verb == b"scrape".as_slice() {
        read_scrape(alloc, rest)
    } else {
        Ok(None)
    }
}

fn read_scrape(alloc: Global, rest: &[u8]) -> Result<Option<Ask>, Memory>
    ensures { IfOk result (λ ask. ask ≡ asks.scrape_of rest.now) }
{
    let Some(hash) = read_hash(alloc, rest)? else {
        return Ok(None);
    };
    Ok(Some(Ask {
        action: word(alloc, b"scrape")?,
        hash,
        peer: word(alloc, b"")?,
        left: 0,
    }))
}

fn read_announce(alloc: Global, rest: &[u8]) -> Result<Option<Ask>, Memory>
    ensures { IfOk result (λ ask. ask ≡ asks.announce_of rest.now) }
{
    let (hash, rest) = cut(rest, b' ');
    let (place, rest) = cut(rest, b' ');
    let (left, event) = cut(rest, b' ');
    let Some(hash) = read_hash(alloc, hash)? else {
        return Ok(None);
    };
    let Some(peer) = read_peer(alloc, place)? else {
        return Ok(None);
    };
    let Some(left) = number(left, 0, i64::MAX as u64) else {
        return Ok(None);
    };
    let Some(action) = action_of(event) else {
        return Ok(None);
    };
    Ok(Some(Ask {
        action: word(alloc, action)?,
        hash,
        peer,
        left: left as i64,
    }))
}

/// The action of an event.
fn action_of(event: &[u8]) -> Option<&'static [u8]>
    ensures same { option_map (λ action. action.now) result ≡ asks.action_of event.now }
    ensures short { IfSome result (λ action. length action.now ≤ TEXT_LIMIT) }
{
    if event == b"started".as_slice() || event == b"-".as_slice() {
        Some(b"announce")
    } else if event == b"completed".as_slice() {
        Some(b"completed")
    } else if event == b"stopped".as_slice() {
        Some(b"stopped")
    } else {
        None
    }
}
