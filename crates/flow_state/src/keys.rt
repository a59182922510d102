//! The keys of a flow's classes, and the cells under them.

ghost use Rattle.std.specs.Prelude.{◌≡◌, IfOk, OnOk, OnErr};
ghost use Rattle.std.specs.Option.{option_map};
ghost use Rattle.flow_model.specs.Answers.{cell_at};
ghost use Rattle.flux_cells.specs.Kept.{cells_of};
ghost use Rattle.flux_cells.specs.Applied.{applied};
ghost use Rattle.flow_state.specs.steps.Places.{key_in};
ghost use Rattle.flow_state.specs.steps.Cells.{keys_by, cells_under};

use flow_model::Key;
use flux_cells::Cells;
use flux_model::{Class, ClassNo, Hold, Program};
use flux_values::{Cell, List, Memory, Put};
use std::alloc::Global;

/// The key of a class, with a session's number where the class is a session's.
pub fn key_in(p: &Program, session: u64, class: ClassNo) -> Key
    ensures { result ≡ key_in p.now session class }
{
    let id = match p.classes.get(class.0 as usize) {
        Some(Class { session: true, .. }) => Some(session),
        _ => None,
    };
    Key { class, id }
}

/// The keys of constraints.
fn keys_in(alloc: Global, p: &Program, session: u64, declared: &[Hold]) -> Result<Vec<Key>, Memory>
    ensures { IfOk result (λ keys. keys.items ≡ keys_by p.now session declared.now) }
{
    let mut keys = Vec::new(alloc);
    for hold in declared {
        keys.push(key_in(p, session, hold.class))?;
    }
    Ok(keys)
}

/// Applies puts to the cells under the keys of constraints in a session.
pub fn apply_in(
    alloc: Global,
    p: &Program,
    cells: &mut Cells,
    session: u64,
    declared: &[Hold],
    puts: &List<Put>,
) -> Result<(), Memory>
    ensures ok { OnOk result (cells_of cells.new
        ≡ applied p.now (keys_by p.now session declared.now) (cells_of cells.old) puts.now) }
    ensures err { OnErr result (cells_of cells.new ≡ cells_of cells.old) }
{
    match declared {
        [hold] => cells.apply(&[key_in(p, session, hold.class)], puts, p),
        _ => {
            let keys = keys_in(alloc, p, session, declared)?;
            cells.apply(keys.as_slice(), puts, p)
        }
    }
}

/// The cell under the key of a class; an empty one where there is none.
fn cell_in(
    alloc: Global,
    p: &Program,
    cells: &Cells,
    session: u64,
    class: Option<ClassNo>,
) -> Result<Cell, Memory>
    ensures { IfOk result (λ cell. cell
        ≡ cell_at (cells_of cells.now) (option_map (key_in p.now session) class)) }
{
    let Some(class) = class else {
        return Ok(Cell::new(alloc));
    };
    match cells.cell(key_in(p, session, class)) {
        Some(cell) => cell.copy(),
        None => Ok(Cell::new(alloc)),
    }
}

/// The cells under the keys of classes in a session, in order.
pub fn cells_under(
    alloc: Global,
    p: &Program,
    cells: &Cells,
    session: u64,
    classes: &[Option<ClassNo>],
) -> Result<List<Cell>, Memory>
    ensures { IfOk result (λ read. read
        ≡ cells_under p.now (cells_of cells.now) session classes.now) }
{
    let mut read = List::new(alloc);
    for class in classes {
        read.add(cell_in(alloc, p, cells, session, *class)?)?;
    }
    Ok(read)
}
