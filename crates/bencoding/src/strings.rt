//! Strings: a length, a colon and as many bytes.

ghost use Rattle.std.specs.Prelude.{◌≡◌, ◌≤◌, ◌<◌, length, take, option_map};
ghost use Rattle.bencoding.specs.steps.Keys.{AreKeyBytes, IsKeyRead};

use crate::digits::read_ended;
use crate::keys::{least_length, stop_of};
use crate::values::STRING_LIMIT;

/// The first bytes of some: so many of them, or all.
fn front_of(rest: &[u8], long: usize) -> &[u8]
    ensures same { result.now ≡ take long rest.now }
    ensures within { length result.now ≤ long }
    ensures short { length result.now < long → result.now ≡ rest.now }
{
    if long < rest.len() {
        &rest[..long]
    } else {
        rest
    }
}

/// The bytes of the string at the front, above those of another where there is one, and the length of its
/// spelling; or the first place at which none goes on.
pub fn read_string<'a>(bytes: &'a [u8], before: Option<&[u8]>) -> Result<(&'a [u8], usize), usize>
    requires { AreKeyBytes (option_map (λ key. key.now) before) }
    ensures { IsKeyRead (option_map (λ key. key.now) before.entry) bytes.now result }
{
    let least = least_length(before);
    let (length, at) = match read_ended(bytes, least, STRING_LIMIT as u64, b':') {
        Ok(read) => read,
        Err(at) => return Err(at),
    };
    let long = length as usize;
    let front = front_of(&bytes[at..], long);
    match stop_of(before, front, long) {
        Some(stop) => Err(at + stop),
        None => {
            if front.len() < long {
                Err(bytes.len())
            } else {
                Ok((front, at + long))
            }
        }
    }
}
