//! What one put does to one cell; copies of the cells that puts touch, and how they are put back all at once.

ghost use Rattle.std.specs.Prelude.{◌≡◌, IfOk, OnOk, OnErr, IsTrue, ◌↔◌, map as mapped, unwrap_or, option_copied, Some};
ghost use Rattle.std.specs.List.{position};
ghost use Rattle.flux_values.specs.Cells.{no_cell, changed};
ghost use Rattle.flow_model.specs.CellsAfter.{is_named};
ghost use Rattle.flux_cells.specs.Kept.{NoneIsEmpty, kept_at, cells_of};
ghost use Rattle.flux_cells.specs.Applied.{class_of};
ghost use Rattle.flux_cells.specs.steps.Settling.{Touched, overlay, with_put, with_puts, keys_in, AreKept, EmptyOnlyAt};

use flow_model::Key;
use flux_model::Program;
use flux_values::{Cell, Memory, Put, Value};
use std::alloc::Global;
use std::collections::BTreeMap;

/// Copies of the cells of keys, in the keys' order.
pub fn copies_under(
    alloc: Global,
    cells: &BTreeMap<Key, Cell>,
    keys: &[Key],
) -> Result<Vec<(Key, Cell)>, Memory>
    ensures { IfOk result (λ touched. touched.items ≡ mapped (λ key. (key, cells_of cells.now.entries key)) keys.now) }
{
    let mut touched = Vec::new(alloc);
    for key in keys {
        touched.push((*key, copy_of(alloc, cells.get(key))?))?;
    }
    Ok(touched)
}

fn copy_of(alloc: Global, cell: Option<&Cell>) -> Result<Cell, Memory>
    ensures { IfOk result (λ copied. copied ≡ unwrap_or (option_copied cell.entry) no_cell) }
{
    match cell {
        Some(cell) => cell.copy(),
        None => Ok(Cell::new(alloc)),
    }
}

/// Applies puts in order.
pub fn put_all(
    alloc: Global,
    touched: &mut Vec<(Key, Cell)>,
    puts: &[Put],
    p: &Program,
) -> Result<(), Memory>
    ensures { OnOk result (touched.new.items ≡ with_puts p.now touched.old.items puts.now) }
{
    for put in puts {
        put_in(alloc, touched, put, p)?;
    }
    Ok(())
}

/// Applies a put to the copy of that key whose class has the put's cell name.
fn put_in(
    alloc: Global,
    touched: &mut Vec<(Key, Cell)>,
    put: &Put,
    p: &Program,
) -> Result<(), Memory>
    ensures { OnOk result (touched.new.items ≡ with_put p.now touched.old.items put.now) }
{
    let Some(place) = place_named(touched, p, put.cell.as_bytes()) else {
        return Ok(());
    };
    put_on(alloc, &mut touched[place].1, put)
}

/// Applies a put to a cell.
pub fn put_on(alloc: Global, cell: &mut Cell, put: &Put) -> Result<(), Memory>
    ensures ok { OnOk result (cell.new ≡ changed cell.old put.now.name put.now.value) }
    ensures err { OnErr result (cell.new ≡ cell.old) }
{
    let name = put.name.again(alloc)?;
    let value = copy_value(alloc, &put.value)?;
    cell.put(name, value)
}

fn copy_value(alloc: Global, value: &Option<Value>) -> Result<Option<Value>, Memory>
    ensures { IfOk result (λ copied. copied ≡ value.now) }
{
    match value {
        Some(value) => Ok(Some(value.copy(alloc)?)),
        None => Ok(None),
    }
}

/// The place of the first key whose class has a name.
fn place_named(touched: &[(Key, Cell)], p: &Program, name: &[u8]) -> Option<usize>
    ensures { result ≡ position (λ cell. is_named name.now (class_of p.now cell.0)) touched.now }
{
    touched.iter().position(|(key, _)| has_name(p, *key, name))
}

/// Whether a key's class has a name.
pub fn has_name(p: &Program, key: Key, name: &[u8]) -> bool
    ensures { result ≡ is_named name.now (class_of p.now key) }
{
    match p.classes.get(key.class.0 as usize) {
        Some(class) => name == class.name.as_bytes(),
        None => false,
    }
}

/// Puts the copies in place of the cells, or changes none.
pub fn settle(
    alloc: Global,
    cells: &mut BTreeMap<Key, Cell>,
    keys: &[Key],
    touched: Vec<(Key, Cell)>,
) -> Result<(), Memory>
    requires empty { NoneIsEmpty cells.old.entries }
    requires keys { keys_in touched.items ≡ keys.now }
    ensures ok { OnOk result (cells_of cells.new.entries ≡ overlay touched.items (cells_of cells.old.entries)) }
    ensures err { OnErr result (cells_of cells.new.entries ≡ cells_of cells.old.entries) }
    ensures empty { NoneIsEmpty cells.new.entries }
{
    let settled = replace(alloc, cells, keys, touched);
    sweep(cells, keys);
    settled
}

/// Puts the copies in place of the cells, and empty cells under the keys of the copies.
fn replace(
    alloc: Global,
    cells: &mut BTreeMap<Key, Cell>,
    keys: &[Key],
    touched: Vec<(Key, Cell)>,
) -> Result<(), Memory>
    requires empty { NoneIsEmpty cells.old.entries }
    requires keys { keys_in touched.items ≡ keys.now }
    ensures ok { OnOk result (cells_of cells.new.entries ≡ overlay touched.items (cells_of cells.old.entries)) }
    ensures err { OnErr result (cells_of cells.new.entries ≡ cells_of cells.old.entries) }
    ensures empty { EmptyOnlyAt keys.now cells.new.entries }
{
    make_room(alloc, cells, keys)?;
    place(cells, touched);
    Ok(())
}

/// Keeps an empty cell under each key that has none, as far as there is memory.
fn make_room(alloc: Global, cells: &mut BTreeMap<Key, Cell>, keys: &[Key]) -> Result<(), Memory>
    requires { NoneIsEmpty cells.old.entries }
    ensures same { cells_of cells.new.entries ≡ cells_of cells.old.entries }
    ensures empty { EmptyOnlyAt keys.now cells.new.entries }
    ensures ok { OnOk result (AreKept keys.now cells.new.entries) }
{
    for key in keys {
        if !cells.contains_key(key) {
            drop(cells.insert(*key, Cell::new(alloc))?);
        }
    }
    Ok(())
}

/// Puts the copies in place of the cells; of two under one key, the first.
fn place(cells: &mut BTreeMap<Key, Cell>, mut touched: Vec<(Key, Cell)>)
    requires kept { AreKept (keys_in touched.items) cells.old.entries }
    requires empty { EmptyOnlyAt (keys_in touched.items) cells.old.entries }
    ensures placed { cells_of cells.new.entries ≡ overlay touched.items (cells_of cells.old.entries) }
    ensures empty { EmptyOnlyAt (keys_in touched.items) cells.new.entries }
{
    while let Some((key, copy)) = touched.pop() {
        if let Some(cell) = cells.get_mut(&key) {
            *cell = copy;
        }
    }
}

/// Takes the empty cells under keys out.
fn sweep(cells: &mut BTreeMap<Key, Cell>, keys: &[Key])
    requires { EmptyOnlyAt keys.now cells.old.entries }
    ensures same { cells_of cells.new.entries ≡ cells_of cells.old.entries }
    ensures empty { NoneIsEmpty cells.new.entries }
{
    for key in keys {
        if has_empty(cells, *key) {
            drop(cells.remove(key));
        }
    }
}

/// Whether an empty cell is kept under a key.
fn has_empty(cells: &BTreeMap<Key, Cell>, key: Key) -> bool
    ensures { IsTrue result ↔ (kept_at cells.now.entries key ≡ Some no_cell) }
{
    match cells.get(&key) {
        Some(cell) => is_empty(cell),
        None => false,
    }
}

/// Whether a cell has no names.
pub fn is_empty(cell: &Cell) -> bool
    ensures { IsTrue result ↔ (cell.now ≡ no_cell) }
{
    cell.name_at(0).is_none()
}
