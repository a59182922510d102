//! Numbers and values added at the end of bytes. A number's digits are laid out on the stack, and take no memory of their own.

ghost use Rattle.std.specs.Prelude.{◌≡◌, ◌≤◌, ◌++◌, [], OnOk, length, drop};
ghost use Rattle.std.specs.Fmt.{decimal};
ghost use Rattle.flux_values.specs.Texts.{printed_value};

use crate::quotes::append_quoted;
use flux_values::{Bytes, Memory, Value};
use std::alloc::Global;

/// How many bytes a piece has room for: a number's twenty digits, and what follows them.
const PIECE_LENGTH: usize = 64;

/// Adds a number in decimal digits at the end.
pub fn append_number(out: &mut Bytes, number: u64) -> Result<(), Memory>
    ensures { OnOk result (out.new ≡ out.old ++ decimal number) }
{
    let mut digits = [0; 20];
    let start = write_digits(number, &mut digits);
    out.append(&digits[start..])
}

/// Adds a number in decimal digits, and bytes after it, at the end: as one piece where the bytes are few.
pub fn append_number_with(out: &mut Bytes, number: u64, behind: &[u8]) -> Result<(), Memory>
    ensures { OnOk result (out.new ≡ out.old ++ (decimal number ++ behind.now)) }
{
    let mut piece = [0; PIECE_LENGTH];
    let start = write_digits(number, &mut piece);
    if behind.len() > PIECE_LENGTH - 20 {
        out.append(&piece[start..20])?;
        return out.append(behind);
    }
    let end = 20 + behind.len();
    piece[20..end].copy_from_slice(behind);
    out.append(&piece[start..end])
}

/// Adds a value's spelling at the end. After an `Err` a part of it may be there.
pub fn append_value(alloc: Global, out: &mut Bytes, value: &Value) -> Result<(), Memory>
    ensures { OnOk result (out.new ≡ out.old ++ printed_value value.now) }
{
    append_value_with(alloc, out, value, b"")
}

/// Adds a value's spelling, and bytes after it, at the end. After an `Err` a part of them may be there.
#[inline(always)]
pub fn append_value_with(
    alloc: Global,
    out: &mut Bytes,
    value: &Value,
    behind: &[u8],
) -> Result<(), Memory>
    ensures { OnOk result (out.new ≡ out.old ++ (printed_value value.now ++ behind.now)) }
{
    match value {
        Value::Int(number) if *number >= 0 => append_number_with(out, *number as u64, behind),
        Value::Text(text) => append_quoted(out, b"", text.as_bytes(), behind),
        _ => {
            flux_spelling::append_value(alloc, out, value)?;
            out.append(behind)
        }
    }
}

/// Writes a number's digits so that the last is the twentieth of the bytes, and tells where they start.
fn write_digits(number: u64, bytes: &mut [u8]) -> usize
    requires { 20 ≤ length bytes.old }
    ensures start { result ≤ 20 }
    ensures written { drop result bytes.new ≡ decimal number ++ drop 20 bytes.old }
{
    let mut left = number;
    let mut start = 20;
    while left >= 10 {
        start -= 1;
        bytes[start] = b'0' + (left % 10) as u8;
        left /= 10;
    }
    start -= 1;
    bytes[start] = b'0' + left as u8;
    start
}
