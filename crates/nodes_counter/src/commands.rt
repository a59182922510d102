//! The texts that `Command` takes.

ghost use Rattle.std.specs.Prelude.{◌≡◌, ℤ, IfOk, Some, ◌↔◌};
ghost use Rattle.flux_values.specs.Spellings.{Spells};
ghost use Rattle.flux_values.specs.declared.values.Value.TheVariants.{Int};
ghost use Rattle.nodes_counter.specs.Numbers.{int_spelled, number_of};
ghost use Rattle.nodes_counter.specs.Calls.{added};

use flux_spelling::read_value;
use flux_values::{Memory, Value, ValueFault};
use std::alloc::Global;

/// The number in the text `add`, one space and an Int spelling up to the end.
pub(crate) fn amount(alloc: Global, text: &[u8]) -> Result<Option<i64>, Memory>
    ensures { IfOk result (λ amount. amount ≡ added text.now) }
{
    match text.strip_prefix(b"add ") {
        Some(spelling) => spelled_int(alloc, spelling),
        None => Ok(None),
    }
}

/// The number of 64 bits that all the bytes spell: one digit or more, after a minus sign or none.
pub fn spelled_int(alloc: Global, bytes: &[u8]) -> Result<Option<i64>, Memory>
    ensures value { IfOk result (λ number. number ≡ int_spelled bytes.now) }
    // It is the number whose spelling they are.
    ensures spelling { IfOk result (λ found. (number : ℤ) →
        (found ≡ Some number) ↔ Spells bytes.now (Int number)) }
{
    let (value, length) = match read_value(alloc, bytes) {
        Ok(read) => read,
        Err(ValueFault::Memory) => return Err(Memory),
        Err(ValueFault::BadValue { .. }) => return Ok(None),
        Err(ValueFault::TooLong { .. }) => return Ok(None),
    };
    if length < bytes.len() {
        return Ok(None);
    }
    Ok(number_of(&value))
}

fn number_of(value: &Value) -> Option<i64>
    ensures { result ≡ number_of value.now }
{
    match value {
        Value::Int(number) => Some(*number),
        _ => None,
    }
}
