//! What a node reads of its one cell, and what it puts there.

ghost use Rattle.std.specs.Prelude.{◌≡◌, ◌≤◌, [], ◌∷◌, ◌++◌, true, Some, length, IfOk, OnOk, option_copied};
ghost use Rattle.flux_values.specs.Texts.{printed_value};
ghost use Rattle.flux_values.specs.declared.texts.TheConstants.{TEXT_LIMIT};
ghost use Rattle.flux_values.specs.declared.values.Value.TheVariants.{Int};
ghost use Rattle.nodes_shortener.specs.Cells as reads;

use flux_library::answers::word;
use flux_spelling::append_value;
use flux_values::{Answer, Bytes, Cell, Memory, Put, TextBytes, Value};
use std::alloc::Global;

/// The number under a name of the one cell, or 0.
pub fn number_under(cells: &[Cell], name: &[u8]) -> i64
    ensures { result ≡ reads.number_under cells.now name.now }
{
    match cells {
        [cell] => number_or_zero(cell.get(name)),
        _ => 0,
    }
}

fn number_or_zero(value: Option<&Value>) -> i64
    ensures { result ≡ reads.number_or_zero (option_copied value.entry) }
{
    match value {
        Some(Value::Int(number)) => *number,
        _ => 0,
    }
}

/// The text under a name of the one cell, where there is one.
pub fn text_under(alloc: Global, cells: &[Cell], name: &[u8]) -> Result<Option<TextBytes>, Memory>
    ensures { IfOk result (λ found. found ≡ reads.text_under cells.now name.now) }
{
    match cells {
        [cell] => text_of(alloc, cell.get(name)),
        _ => Ok(None),
    }
}

fn text_of(alloc: Global, value: Option<&Value>) -> Result<Option<TextBytes>, Memory>
    ensures { IfOk result (λ found. found ≡ reads.text_of (option_copied value.entry)) }
{
    match value {
        Some(Value::Text(text)) => Ok(Some(held(alloc, text.as_bytes())?)),
        _ => Ok(None),
    }
}

/// A text of a cell once more.
#[tactic(auto, using(crate::specs::laws::Cells::is_text_of_bytes))]
fn held(alloc: Global, bytes: &[u8]) -> Result<TextBytes, Memory>
    requires { length bytes.now ≤ TEXT_LIMIT }
    ensures same { IfOk result (λ text. text ≡ bytes.now) }
    ensures is_text { reads.is_text bytes.now ≡ true }
{
    word(alloc, bytes)
}

/// A number in decimal, as a name of a cell.
#[tactic(auto, using(crate::specs::laws::Arguments::number_short))]
pub fn decimal(alloc: Global, number: i64) -> Result<TextBytes, Memory>
    ensures { IfOk result (λ name. name ≡ printed_value (Int number)) }
{
    let mut digits = Bytes::new(alloc);
    append_value(alloc, &mut digits, &Value::Int(number))?;
    word(alloc, digits.as_bytes())
}

/// Adds a put to an answer: this value under a name of the cell.
pub fn put(
    alloc: Global,
    answer: &mut Answer,
    cell: &[u8],
    name: TextBytes,
    value: Value,
) -> Result<(), Memory>
    requires { length cell.now ≤ TEXT_LIMIT }
    ensures puts { OnOk result (answer.new.puts ≡ answer.old.puts
        ++ record { cell = cell.now; name = name; value = Some value } ∷ []) }
    ensures kept { (answer.new.result ≡ answer.old.result) × (answer.new.emits ≡ answer.old.emits) }
{
    let cell = word(alloc, cell)?;
    let value = Some(value);
    answer.puts.add(Put { cell, name, value })
}
