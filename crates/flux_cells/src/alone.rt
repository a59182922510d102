//! One put alone, on the cell itself. It needs no copies, since a cell that refuses a put is as it was.

ghost use Rattle.std.specs.Prelude.{◌≡◌, OnOk, OnErr, None, Some};
ghost use Rattle.flow_model.specs.CellsAfter.{put_under};
ghost use Rattle.flux_cells.specs.Kept.{NoneIsEmpty, kept_at, cells_of};
ghost use Rattle.flux_cells.specs.Applied.{key_named};

use crate::touched::{has_name, is_empty, put_on};
use flow_model::Key;
use flux_model::Program;
use flux_values::{Cell, Memory, Put};
use std::alloc::Global;
use std::collections::BTreeMap;

/// Applies a put to the cell of that key whose class has the put's cell name.
pub fn put_alone(
    alloc: Global,
    cells: &mut BTreeMap<Key, Cell>,
    keys: &[Key],
    put: &Put,
    p: &Program,
) -> Result<(), Memory>
    requires { NoneIsEmpty cells.old.entries }
    ensures ok { let meant = key_named p.now keys.now put.now.cell in
        OnOk result (cells_of cells.new.entries ≡ put_under (cells_of cells.old.entries) put.now meant) }
    ensures err { OnErr result (cells_of cells.new.entries ≡ cells_of cells.old.entries) }
    ensures empty { NoneIsEmpty cells.new.entries }
{
    match meant_key(keys, p, put.cell.as_bytes()) {
        Some(key) => put_under_key(alloc, cells, key, put),
        None => Ok(()),
    }
}

/// The first key whose class has a name.
fn meant_key(keys: &[Key], p: &Program, name: &[u8]) -> Option<Key>
    ensures { result ≡ key_named p.now keys.now name.now }
{
    keys.iter().copied().find(|key| has_name(p, *key, name))
}

/// Applies a put to the cell of a key.
fn put_under_key(
    alloc: Global,
    cells: &mut BTreeMap<Key, Cell>,
    key: Key,
    put: &Put,
) -> Result<(), Memory>
    requires { NoneIsEmpty cells.old.entries }
    ensures ok { OnOk result
        (cells_of cells.new.entries ≡ put_under (cells_of cells.old.entries) put.now (Some key)) }
    ensures err { OnErr result (cells_of cells.new.entries ≡ cells_of cells.old.entries) }
    ensures empty { NoneIsEmpty cells.new.entries }
{
    let Some(cell) = cells.get_mut(&key) else {
        return put_new(alloc, cells, key, put);
    };
    put_on(alloc, cell, put)?;
    if is_empty(cell) {
        drop(cells.remove(&key));
    }
    Ok(())
}

/// Applies a put to the empty cell of a key, and keeps the cell if it has a name then.
fn put_new(
    alloc: Global,
    cells: &mut BTreeMap<Key, Cell>,
    key: Key,
    put: &Put,
) -> Result<(), Memory>
    requires empty { NoneIsEmpty cells.old.entries }
    requires absent { kept_at cells.old.entries key ≡ None }
    ensures ok { OnOk result
        (cells_of cells.new.entries ≡ put_under (cells_of cells.old.entries) put.now (Some key)) }
    ensures err { OnErr result (cells_of cells.new.entries ≡ cells_of cells.old.entries) }
    ensures empty { NoneIsEmpty cells.new.entries }
{
    let mut cell = Cell::new(alloc);
    put_on(alloc, &mut cell, put)?;
    if !is_empty(&cell) {
        drop(cells.insert(key, cell)?);
    }
    Ok(())
}
