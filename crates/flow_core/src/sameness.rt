//! Whether calls have the same inputs.

ghost use Rattle.std.specs.Prelude.{◌≡◌, ◌↔◌, Some, IsTrue, IfOk, option_copied, slice_get};
ghost use Rattle.std.specs.FinMap as map;
ghost use Rattle.flow_core.specs.steps.Sameness.{IsSameAt};

use flow_state::Inputs;
use flux_values::{Cell, Memory, TextBytes, Value};

fn same_value(a: Option<&Value>, b: Option<&Value>) -> bool
    ensures { IsTrue result ↔ (option_copied a.entry ≡ option_copied b.entry) }
{
    match (a, b) {
        (Some(a), Some(b)) => a == b,
        (None, None) => true,
        (Some(_), None) | (None, Some(_)) => false,
    }
}

/// Whether two cells have the same name at a place, with the same value.
fn same_at(a: &Cell, b: &Cell, place: usize, name: &TextBytes) -> bool
    requires { slice_get (map.keys a.now) place ≡ Some name.now }
    ensures { IsTrue result ↔ IsSameAt a.now b.now place }
{
    let Some(other) = b.name_at(place) else {
        return false;
    };
    let value = a.get(name.as_bytes());
    let their = b.get(name.as_bytes());
    name.as_bytes() == other.as_bytes() && same_value(value, their)
}

/// Whether two cells are the same. No memory holds as many names as have no number.
fn same_cell(a: &Cell, b: &Cell) -> Result<bool, Memory>
    ensures { IfOk result (λ same. IsTrue same ↔ (a.now ≡ b.now)) }
{
    let mut place: usize = 0;
    while let Some(name) = a.name_at(place) {
        if !same_at(a, b, place, name) {
            return Ok(false);
        }
        place = place.checked_add(1).ok_or(Memory)?;
    }
    Ok(b.name_at(place).is_none())
}

fn same_cells(a: &[Cell], b: &[Cell]) -> Result<bool, Memory>
    ensures { IfOk result (λ same. IsTrue same ↔ (a.now ≡ b.now)) }
{
    let mut left = a;
    let mut rest = b;
    while let [cell, cells @ ..] = left {
        let [other, others @ ..] = rest else {
            return Ok(false);
        };
        if !same_cell(cell, other)? {
            return Ok(false);
        }
        left = cells;
        rest = others;
    }
    Ok(rest.is_empty())
}

fn same_call(a: &Inputs, b: &Inputs) -> bool
    ensures { IsTrue result ↔ ((a.now.node ≡ b.now.node) × (a.now.args ≡ b.now.args)) }
{
    a.node == b.node && a.args.as_slice() == b.args.as_slice()
}

/// Whether two calls are of the same node, on the same values and cells.
pub fn same_inputs(a: &Inputs, b: &Inputs) -> Result<bool, Memory>
    ensures { IfOk result (λ same. IsTrue same ↔ (a.now ≡ b.now)) }
{
    if !same_call(a, b) {
        return Ok(false);
    }
    same_cells(a.cells.as_slice(), b.cells.as_slice())
}
