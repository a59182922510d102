//! Values as bytes: each has one spelling.

ghost use Rattle.std.specs.Prelude.{◌≡◌, ◌++◌, IfOk, OnOk, codes};
ghost use Rattle.std.specs.Fmt.{signed_decimal};
ghost use Rattle.bencoding.specs.Trees.{spelling, spelled_string};
ghost use Rattle.bencoding.specs.Views.{tree_of};
ghost use Rattle.bencoding.specs.steps.Printed.{spelled_list, spelled_dictionary};

use crate::values::{Ben, Field};
use flux_spelling::{append_number, append_value};
use flux_values::{Bytes, Memory, Value};
use std::alloc::Global;

/// The one spelling of a value.
pub fn print_ben(alloc: Global, value: &Ben) -> Result<Bytes, Memory>
    ensures { IfOk result (λ printed. printed ≡ spelling (tree_of value.now)) }
{
    let mut printed = Bytes::new(alloc);
    append_ben(alloc, &mut printed, value)?;
    Ok(printed)
}

/// Adds a value's spelling at the end. After an `Err` a part of it may be there.
#[cycle(printing)]
fn append_ben(alloc: Global, out: &mut Bytes, value: &Ben) -> Result<(), Memory>
    ensures { OnOk result (out.new ≡ out.old ++ spelling (tree_of value.now)) }
{
    match value {
        Ben::Int(number) => append_int(alloc, out, *number),
        Ben::Text(text) => append_string(alloc, out, text.as_bytes()),
        Ben::Items(items) => append_items(alloc, out, items),
        Ben::Dict(fields) => append_fields(alloc, out, fields),
    }
}

fn append_int(alloc: Global, out: &mut Bytes, number: i64) -> Result<(), Memory>
    ensures { OnOk result (out.new ≡ out.old ++ (codes "i" ++ (signed_decimal number ++ codes "e"))) }
{
    out.append(b"i")?;
    append_value(alloc, out, &Value::Int(number))?;
    out.append(b"e")
}

fn append_string(alloc: Global, out: &mut Bytes, bytes: &[u8]) -> Result<(), Memory>
    ensures { OnOk result (out.new ≡ out.old ++ spelled_string bytes.now) }
{
    append_number(alloc, out, bytes.len() as u64)?;
    out.append(b":")?;
    out.append(bytes)
}

#[cycle(printing)]
fn append_items(alloc: Global, out: &mut Bytes, items: &Vec<Ben>) -> Result<(), Memory>
    ensures { OnOk result (out.new ≡ out.old ++ spelled_list items.now.items) }
{
    out.append(b"l")?;
    for item in items {
        append_ben(alloc, out, item)?;
    }
    out.append(b"e")
}

#[cycle(printing)]
fn append_fields(alloc: Global, out: &mut Bytes, fields: &Vec<Field<Ben>>) -> Result<(), Memory>
    ensures { OnOk result (out.new ≡ out.old ++ spelled_dictionary fields.now.items) }
{
    out.append(b"d")?;
    for field in fields {
        append_string(alloc, out, field.key.as_bytes())?;
        append_ben(alloc, out, &field.value)?;
    }
    out.append(b"e")
}
