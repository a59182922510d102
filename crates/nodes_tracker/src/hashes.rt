//! Hashes in hexadecimal digits.

ghost use Rattle.std.specs.Prelude.{◌≡◌, IfOk};
ghost use Rattle.nodes_tracker.specs.Asks.{hex_value, hash_of};

use flux_values::{Memory, TextBytes};
use std::alloc::Global;

/// The hash of 20 bytes that 40 lower-case hexadecimal digits spell.
pub fn read_hash(alloc: Global, text: &[u8]) -> Result<Option<TextBytes>, Memory>
    ensures { IfOk result (λ hash. hash ≡ hash_of text.now) }
{
    if text.len() != 40 {
        return Ok(None);
    }
    let mut hash = Vec::new(alloc);
    for place in 0..20 {
        match (hex_value(text[2 * place]), hex_value(text[2 * place + 1])) {
            (Some(high), Some(low)) => hash.push(16 * high + low)?,
            _ => return Ok(None),
        }
    }
    Ok(Some(TextBytes::from_vec(hash)))
}

fn hex_value(digit: u8) -> Option<u8>
    ensures { result ≡ hex_value digit }
{
    if digit >= b'0' && digit <= b'9' {
        Some(digit - b'0')
    } else if digit >= b'a' && digit <= b'f' {
        Some(digit - b'a' + 10)
    } else {
        None
    }
}
