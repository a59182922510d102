//! Values read from the front of bytes.

ghost use Rattle.std.specs.Prelude.{◌≡◌, ◌<◌, ◌≤◌, ◌*◌, ◌+◌, ◌-◌, ◌∷◌, ℕ, length, drop, IfOk, IfSome, Ok, Err, slice_index, slice_get};
ghost use Rattle.flux_values.specs.declared.values.Value.{Value};
ghost use Rattle.flux_values.specs.declared.failures.ValueFault.TheVariants as faults;
ghost use Rattle.flux_values.specs.Texts.{printed_bool};
ghost use Rattle.flux_values.specs.Reading.{ReadsBack, BeginsWith};
ghost use Rattle.flux_values.specs.Answers.{IsOrMemory};
ghost use Rattle.flux_values.specs.Spellings.{with_sign, HasCause, IsLongest, IsTooLong, IsBadValue, IsDecimalRead, IsTextRead};
ghost use Rattle.flux_spelling.specs.steps.Pieces.{piece_of, escape_of, hexadecimal_of, digit_in};
ghost use Rattle.flux_spelling.specs.steps.Literals.{IsLiteralRead};
ghost use Rattle.flux_spelling.specs.steps.Numbers.{IsSigned, AreDigitsRead, limit_of};

use crate::printing::print_value;
use flux_values::{Bytes, Memory, TEXT_LIMIT, TextBytes, Value, ValueFault};
use std::alloc::Global;

/// How the bytes of a text go on between its quotes.
#[derive(Clone, Copy)]
enum Piece {
    /// So many bytes spell this byte.
    Spells { byte: u8, length: usize },
    /// No spelling goes on past so many bytes, or the bytes end there.
    Stops { after: usize },
}

/// The value whose longest spelling begins the bytes, and that spelling's length.
///
/// Besides printed spellings it reads leading zeros, `-0`, hexadecimal digits in either case, `\x`
/// for any byte, and any raw byte other than `"`, `\` and LF within a text. An Int ends where no
/// digit follows.
/// `TooLong` and `BadValue` are of the first byte at which no spelling goes on.
pub fn read_value(alloc: Global, bytes: &[u8]) -> Result<(Value, usize), ValueFault>
    // Each answer has its cause.
    ensures cause { HasCause result bytes.now }
    // Each cause has its answer, but for want of memory.
    ensures value { (value : Value) (n : ℕ) → IsLongest bytes.now value n
        → IsOrMemory faults.Memory (Ok (value, n)) result }
    ensures too_long { (at : ℕ) → IsTooLong bytes.now at
        → IsOrMemory faults.Memory (Err (faults.TooLong at)) result }
    ensures bad { (at : ℕ) → IsBadValue bytes.now at
        → IsOrMemory faults.Memory (Err (faults.BadValue at)) result }
    // A printed value is read back with its length, whatever follows it; but no digit after an Int.
    ensures again { (value : Value) → BeginsWith value bytes.now → ReadsBack result value }
{
    read_front(alloc, bytes)
}

/// Reads by the first byte what it can begin.
fn read_front(alloc: Global, bytes: &[u8]) -> Result<(Value, usize), ValueFault>
    ensures { HasCause result bytes.now }
{
    match bytes.first() {
        None => Err(ValueFault::BadValue { at: 0 }),
        Some(b'"') => read_text(alloc, bytes),
        Some(b't') => read_word(bytes, b"true", true),
        Some(b'f') => read_word(bytes, b"false", false),
        Some(b'-') => read_number(bytes, true),
        Some(first) if first.is_ascii_digit() => read_number(bytes, false),
        Some(_) => Err(ValueFault::BadValue { at: 0 }),
    }
}

fn read_word(bytes: &[u8], word: &[u8], truth: bool) -> Result<(Value, usize), ValueFault>
    requires word { word.now ≡ printed_bool truth }
    requires first { slice_index bytes.now 0 ≡ slice_index word.now 0 }
    requires some { 0 < length bytes.now }
    ensures { HasCause result bytes.now }
{
    let mut at = 0;
    while at < word.len() {
        if at == bytes.len() || bytes[at] != word[at] {
            return Err(ValueFault::BadValue { at });
        }
        at += 1;
    }
    Ok((Value::Bool(truth), at))
}

fn read_number(bytes: &[u8], negative: bool) -> Result<(Value, usize), ValueFault>
    requires { IsSigned negative bytes.now }
    ensures { HasCause result bytes.now }
{
    let sign = usize::from(negative);
    let limit = i64::MAX as u64 + u64::from(negative);
    match read_digits(&bytes[sign..], limit) {
        Ok((magnitude, length)) => {
            let number = signed(negative, magnitude);
            Ok((Value::Int(number), sign + length))
        }
        Err(at) => Err(ValueFault::BadValue { at: sign + at }),
    }
}

fn signed(negative: bool, magnitude: u64) -> i64
    requires { magnitude ≤ limit_of negative }
    ensures { result ≡ with_sign negative magnitude }
{
    if !negative {
        return magnitude as i64;
    }
    match magnitude {
        0 => 0,
        _ => -((magnitude - 1) as i64) - 1,
    }
}

/// The number that the digits at the front spell, and how many they are; or where no spelling of a
/// number up to the limit goes on.
fn read_digits(bytes: &[u8], limit: u64) -> Result<(u64, usize), usize>
    requires { 9 ≤ limit }
    ensures { AreDigitsRead result bytes.now limit }
{
    let mut number = 0;
    let mut at = 0;
    while at < bytes.len() && bytes[at].is_ascii_digit() {
        let digit = u64::from(bytes[at] - b'0');
        if number > (limit - digit) / 10 {
            return Err(at);
        }
        number = 10 * number + digit;
        at += 1;
    }
    if at == 0 { Err(0) } else { Ok((number, at)) }
}

/// The number up to a limit whose decimal digits are at the front, without a leading zero, and how
/// many they are. No digit comes after them.
pub fn read_decimal(bytes: &[u8], limit: u64) -> Option<(u64, usize)>
    requires { 9 ≤ limit }
    ensures { IsDecimalRead bytes.now limit result }
{
    match read_digits(bytes, limit) {
        Ok((_, length)) if length > 1 && bytes[0] == b'0' => None,
        Ok((number, length)) => Some((number, length)),
        Err(_at) => None,
    }
}

fn read_text(alloc: Global, bytes: &[u8]) -> Result<(Value, usize), ValueFault>
    requires { bytes.now ≡ 34 ∷ drop 1 bytes.now }
    ensures { HasCause result bytes.now }
{
    match read_literal(alloc, bytes, TEXT_LIMIT) {
        Ok((text, length)) => Ok((Value::Text(TextBytes::from_vec(text)), length)),
        Err(fault) => Err(fault),
    }
}

/// The text of at most so many bytes whose spelling begins the bytes, and that spelling's length.
/// It is None exactly where the spelling of no such text begins them.
pub fn read_text_within(
    alloc: Global,
    bytes: &[u8],
    limit: usize,
) -> Result<Option<(Bytes, usize)>, Memory>
    ensures { IfOk result (IsTextRead bytes.now limit) }
{
    if bytes.first() != Some(&b'"') {
        return Ok(None);
    }
    match read_literal(alloc, bytes, limit) {
        Ok((text, length)) => Ok(Some((Bytes::from_vec(text), length))),
        Err(ValueFault::Memory) => Err(Memory),
        Err(ValueFault::BadValue { at: _ }) => Ok(None),
        Err(ValueFault::TooLong { at: _ }) => Ok(None),
    }
}

/// The bytes of the text at the front, with the length of its spelling.
fn read_literal(alloc: Global, bytes: &[u8], limit: usize) -> Result<(Vec<u8>, usize), ValueFault>
    requires { bytes.now ≡ 34 ∷ drop 1 bytes.now }
    ensures { IsLiteralRead bytes.now limit result }
{
    let mut text = Vec::new(alloc);
    let mut at = 1;
    while at < bytes.len() && bytes[at] != b'"' {
        if text.len() == limit {
            return Err(ValueFault::TooLong { at });
        }
        match read_piece(&bytes[at..]) {
            Piece::Spells { byte, length } => {
                text.push(byte)?;
                at += length;
            }
            Piece::Stops { after } => return Err(ValueFault::BadValue { at: at + after }),
        }
    }
    if at == bytes.len() {
        return Err(ValueFault::BadValue { at });
    }
    Ok((text, at + 1))
}

/// The piece at the front of the bytes.
fn read_piece(bytes: &[u8]) -> Piece
    ensures { result ≡ piece_of bytes.now }
{
    match bytes.first() {
        None | Some(b'"' | b'\n') => Piece::Stops { after: 0 },
        Some(b'\\') => read_escape(&bytes[1..]),
        Some(byte) => Piece::Spells {
            byte: *byte,
            length: 1,
        },
    }
}

/// The piece whose bytes after its `\` are at the front.
fn read_escape(bytes: &[u8]) -> Piece
    ensures { result ≡ escape_of bytes.now }
{
    let byte = match bytes.first() {
        Some(b'x') => return read_hexadecimal(&bytes[1..]),
        Some(b'"') => b'"',
        Some(b'\\') => b'\\',
        Some(b'n') => b'\n',
        Some(b'r') => b'\r',
        Some(b't') => b'\t',
        _ => return Piece::Stops { after: 1 },
    };
    Piece::Spells { byte, length: 2 }
}

/// The piece whose bytes after its `\x` are at the front.
fn read_hexadecimal(bytes: &[u8]) -> Piece
    ensures { result ≡ hexadecimal_of bytes.now }
{
    let Some(high) = digit_at(bytes, 0) else {
        return Piece::Stops { after: 2 };
    };
    let Some(low) = digit_at(bytes, 1) else {
        return Piece::Stops { after: 3 };
    };
    Piece::Spells {
        byte: 16 * high + low,
        length: 4,
    }
}

/// The hexadecimal digit at a place.
fn digit_at(bytes: &[u8], place: usize) -> Option<u8>
    ensures value { result ≡ digit_in (slice_get bytes.now place) }
    ensures small { IfSome result (λ digit. digit < 16) }
{
    let digit = char::from(*bytes.get(place)?).to_digit(16)?;
    Some(digit as u8)
}
