//! Pieces of a line: what is around a mark, and numbers.

ghost use Rattle.std.specs.Prelude.{◌≡◌, ◌≤◌, IfSome};
ghost use Rattle.nodes_tracker.specs.Asks.{front, behind, number_within};

use flux_spelling::read_decimal;
use memchr::memchr;

/// What is before the first of a mark, and what after it.
pub fn cut(bytes: &[u8], mark: u8) -> (&[u8], &[u8])
    ensures front { result.0.now ≡ front mark bytes.now }
    ensures behind { result.1.now ≡ behind mark bytes.now }
{
    match memchr(mark, bytes) {
        Some(at) => (&bytes[..at], &bytes[at + 1..]),
        None => (bytes, b""),
    }
}

/// The number within bounds whose decimal digits these are, without a leading zero.
pub fn number(digits: &[u8], low: u64, high: u64) -> Option<u64>
    requires { 9 ≤ high }
    ensures same { result ≡ number_within low high digits.now }
    ensures within { IfSome result (λ number. number ≤ high) }
{
    match read_decimal(digits, high) {
        Some((number, length)) if length == digits.len() && low <= number => Some(number),
        Some(_) => None,
        None => None,
    }
}
