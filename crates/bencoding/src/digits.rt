//! Numbers within bounds, in decimal digits.

ghost use Rattle.std.specs.Prelude.{◌≡◌, ◌≤◌, ◌<◌, ◌*◌, ◌+◌, false};
ghost use Rattle.std.specs.Char.{is_ascii_digit};
ghost use Rattle.bencoding.specs.steps.Numbers.{Starts, IsGrown, AreDigitsRead, AreEndedRead};

use crate::bounds::begins_some;

/// The number with one digit more, where it begins some number within the bounds.
fn grown(number: u64, digit: u8, low: u64, high: u64) -> Option<u64>
    ensures { IsGrown (number * 10 + digit) low high result }
{
    let next = number.checked_mul(10)?.checked_add(u64::from(digit))?;
    if begins_some(next, low, high) {
        Some(next)
    } else {
        None
    }
}

/// The number within the bounds that the digits at the front spell, without a leading zero, and how
/// many they are; or the first place at which none goes on. No digit comes after them.
fn read_digits(bytes: &[u8], low: u64, high: u64) -> Result<(u64, usize), usize>
    ensures { AreDigitsRead low high bytes.now result }
{
    let mut number = 0;
    let mut at = 0;
    while at < bytes.len() && bytes[at].is_ascii_digit() {
        if at > 0 && number == 0 {
            return Err(at);
        }
        match grown(number, bytes[at] - b'0', low, high) {
            Some(next) => number = next,
            None => return Err(at),
        }
        at += 1;
    }
    if at == 0 || number < low {
        Err(at)
    } else {
        Ok((number, at))
    }
}

/// The same with a byte that ends it.
pub fn read_ended(bytes: &[u8], low: u64, high: u64, end: u8) -> Result<(u64, usize), usize>
    requires { is_ascii_digit end ≡ false }
    ensures { AreEndedRead low high end bytes.now result }
{
    let (number, at) = read_digits(bytes, low, high)?;
    if at < bytes.len() && bytes[at] == end {
        Ok((number, at + 1))
    } else {
        Err(at)
    }
}
