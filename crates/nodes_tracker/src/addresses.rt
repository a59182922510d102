//! Peers as they are asked for: `A.B.C.D:PORT`.

ghost use Rattle.std.specs.Prelude.{◌≡◌, ◌≤◌, ◌<◌, IfOk, IfSome, length};
ghost use Rattle.nodes_tracker.specs.Asks.{peer_of, octet};

use crate::pieces::{cut, number};
use flux_values::{Memory, TextBytes};
use std::alloc::Global;

/// The six bytes of a peer: four of its address, and two of its port, big-endian.
pub fn read_peer(alloc: Global, text: &[u8]) -> Result<Option<TextBytes>, Memory>
    ensures { IfOk result (λ peer. peer ≡ peer_of text.now) }
{
    match peer_bytes(text) {
        Some(bytes) => Ok(Some(TextBytes::from_vec(Vec::from_slice(alloc, &bytes)?))),
        None => Ok(None),
    }
}

fn peer_bytes(text: &[u8]) -> Option<[u8; 6]>
    ensures { result ≡ peer_of text.now }
{
    let (first, rest) = cut(text, b'.');
    let (second, rest) = cut(rest, b'.');
    let (third, rest) = cut(rest, b'.');
    let (fourth, port) = cut(rest, b':');
    let first = octet(first)?;
    let second = octet(second)?;
    let third = octet(third)?;
    let fourth = octet(fourth)?;
    let port = number(port, 1, 65_535)?;
    Some([
        first,
        second,
        third,
        fourth,
        (port / 256) as u8,
        (port % 256) as u8,
    ])
}

/// A number from 0 to 255.
fn octet(digits: &[u8]) -> Option<u8>
    ensures { result ≡ octet digits.now }
{
    let number = number(digits, 0, 255)?;
    Some(number as u8)
}
