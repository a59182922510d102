//! Values as text: each has one printed spelling.

ghost use Rattle.std.specs.Prelude.{◌≡◌, ◌++◌, ◌<◌, IfOk, OnOk};
ghost use Rattle.std.specs.Fmt.{decimal};
ghost use Rattle.flux_values.specs.Texts.{hex_digit, printed_byte, printed_text, printed_value};

use flux_values::{Bytes, Memory, Value};
use std::alloc::Global;

/// The one printed spelling of a value.
pub fn print_value(alloc: Global, value: &Value) -> Result<Bytes, Memory>
    ensures { IfOk result (λ printed. printed ≡ printed_value value.now) }
{
    let mut printed = Bytes::new(alloc);
    append_value(alloc, &mut printed, value)?;
    Ok(printed)
}

/// Adds a value's spelling at the end. After an `Err` a part of it may be there.
pub fn append_value(alloc: Global, out: &mut Bytes, value: &Value) -> Result<(), Memory>
    ensures { OnOk result (out.new ≡ out.old ++ printed_value value.now) }
{
    match value {
        Value::Int(number) => out.append(number.to_string(alloc)?.as_bytes()),
        Value::Bool(true) => out.append(b"true"),
        Value::Bool(false) => out.append(b"false"),
        Value::Text(text) => append_text(out, text.as_bytes()),
    }
}

/// Adds a number in decimal digits at the end.
pub fn append_number(alloc: Global, out: &mut Bytes, number: u64) -> Result<(), Memory>
    ensures { OnOk result (out.new ≡ out.old ++ decimal number) }
{
    out.append(number.to_string(alloc)?.as_bytes())
}

/// Adds bytes as a printed text at the end. After an `Err` a part of it may be there.
pub fn append_text(out: &mut Bytes, bytes: &[u8]) -> Result<(), Memory>
    ensures { OnOk result (out.new ≡ out.old ++ printed_text bytes.now) }
{
    out.append(b"\"")?;
    for byte in bytes {
        append_byte(out, *byte)?;
    }
    out.append(b"\"")
}

/// Adds one byte of a text as it is spelled between the quotes.
#[tactic(auto, unfolding(flux_values::specs::Texts::printed_byte))]
fn append_byte(out: &mut Bytes, byte: u8) -> Result<(), Memory>
    ensures { OnOk result (out.new ≡ out.old ++ printed_byte byte) }
{
    match byte {
        b'"' => out.append(b"\\\""),
        b'\\' => out.append(b"\\\\"),
        b'\n' => out.append(b"\\n"),
        b'\r' => out.append(b"\\r"),
        b'\t' => out.append(b"\\t"),
        32..=126 => out.append(&[byte]),
        _ => out.append(&[b'\\', b'x', hex(byte / 16), hex(byte % 16)]),
    }
}

fn hex(digit: u8) -> u8
    requires { digit < 16 }
    ensures { result ≡ hex_digit digit }
{
    if digit < 10 {
        b'0' + digit
    } else {
        b'a' + (digit - 10)
    }
}
