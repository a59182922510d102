//! Cells: what a session or the whole program remembers, by name.

ghost use Rattle.std.specs.Prelude.{◌≡◌, ◌<◌, IfOk, OnOk, OnErr, Some, None, option_copied, slice_get};
ghost use Rattle.std.specs.Ordering.{nat_cmp};
ghost use Rattle.std.specs.Cmp.Lexicographic.{slice_cmp};
ghost use Rattle.std.specs.FinMap as map;
ghost use Rattle.std.specs.Arc.{arc_value};
ghost use Rattle.flux_values.specs.Cells.{changed};
ghost use Rattle.flux_values.specs.steps.Cells.{edited, AreInOrder, IsPlaceOf};

use crate::failures::Memory;
use crate::texts::TextBytes;
use crate::values::Value;
use std::alloc::Global;
use std::cmp::Ordering;
use std::marker::Model;
use std::sync::Arc;

/// The names in bytewise order, each with its value.
type Entries = Vec<(TextBytes, Value)>;

/// A finite map from text to value.
///
/// Copies share their entries until one of them is changed.
pub struct Cell {
    alloc: Global,
    /// None where nothing was put yet.
    entries: Option<Arc<Entries, Global>>,
}

impl Drop for Cell {
    fn drop(self) {
        let Cell { alloc, entries } = self;
    }
}

impl Model for Cell {
    ghost use Rattle.flux_values.specs.Cells.{CellMap};
    ghost use Rattle.flux_values.specs.steps.Cells.{held, AreInOrder};
    ghost use Rattle.std.specs.FinMap as map;
    ghost use Rattle.std.specs.Coded.{coded_list, coded_ℕ};
    ghost use Rattle.flux_values.specs.contracts.values.Value as value;

    ghost Value = { CellMap };

    ghost coded = { map.code (coded_list coded_ℕ) value.the_row.coded };

    ghost view = { λ c. map.from_sorted (held c.entries) };

    ghost invariant = { λ c. AreInOrder (held c.entries) };
}

impl Cell {
    /// The empty cell, which takes no memory yet.
    pub fn new(alloc: Global) -> Cell
        ensures { result ≡ map.empty }
    {
        Cell {
            alloc,
            entries: None,
        }
    }
}

impl Cell {
    /// The value under a name.
    pub fn get(&self, name: &[u8]) -> Option<&Value>
        ensures { option_copied result ≡ map.get self.now name.now }
    {
        let entries = self.entries();
        match find_place(entries, name) {
            Ok(place) => Some(&entries[place].1),
            Err(_) => None,
        }
    }

    /// The name at a place, from 0, in bytewise order.
    pub fn name_at(&self, place: usize) -> Option<&TextBytes>
        ensures { option_copied result ≡ slice_get (map.keys self.now) place }
    {
        match self.entries().get(place) {
            Some((name, _)) => Some(name),
            None => None,
        }
    }

    /// The entries in order.
    fn entries(&self) -> &[(TextBytes, Value)]
        ensures order { AreInOrder result.now }
        ensures same { map.from_sorted result.now ≡ self.now }
    {
        match &self.entries {
            Some(shared) => shared,
            None => &[],
        }
    }

    /// Sets the value under a name, or removes the name where there is no value.
    pub fn put(&mut self, name: TextBytes, value: Option<Value>) -> Result<(), Memory>
        ensures ok { OnOk result (self.new ≡ changed self.old name value) }
        ensures err { OnErr result (self.new ≡ self.old) }
    {
        match &mut self.entries {
            Some(shared) => edit_shared(self.alloc, shared, name, value),
            None => {
                let mut entries = Vec::new(self.alloc);
                edit(&mut entries, name, value)?;
                self.entries = Some(Arc::new(self.alloc, entries)?);
                Ok(())
            }
        }
    }

    /// The same cell once more.
    pub fn copy(&self) -> Result<Cell, Memory>
        ensures { IfOk result (λ copied. copied ≡ self.now) }
    {
        let entries = match &self.entries {
            Some(shared) => Some(Arc::try_clone(shared)?),
            None => None,
        };
        Ok(Cell {
            alloc: self.alloc,
            entries,
        })
    }
}

/// Changes the entries in place where no other cell has them, and else a copy of them.
fn edit_shared(
    alloc: Global,
    shared: &mut Arc<Entries, Global>,
    name: TextBytes,
    value: Option<Value>,
) -> Result<(), Memory>
    requires { AreInOrder (arc_value shared.old).items }
    ensures ok { let before = (arc_value shared.old).items in
        OnOk result ((arc_value shared.new).items ≡ edited before name value) }
    ensures err { OnErr result ((arc_value shared.new).items ≡ (arc_value shared.old).items) }
{
    match Arc::get_mut(shared) {
        Some(entries) => edit(entries, name, value),
        None => {
            let mut entries = copy_entries(alloc, shared)?;
            edit(&mut entries, name, value)?;
            *shared = Arc::new(alloc, entries)?;
            Ok(())
        }
    }
}

/// Where the name is, or where it would go.
fn find_place(entries: &[(TextBytes, Value)], name: &[u8]) -> Result<usize, usize>
    requires { AreInOrder entries.now }
    ensures { IsPlaceOf entries.now name.now result }
{
    entries.binary_search_by(|entry| compare_name(entry, name))
}

fn compare_name(entry: &(TextBytes, Value), name: &[u8]) -> Ordering
    ensures { result ≡ slice_cmp nat_cmp entry.now.0 name.now }
{
    entry.0.as_bytes().cmp(name)
}

fn edit(entries: &mut Entries, name: TextBytes, value: Option<Value>) -> Result<(), Memory>
    requires { AreInOrder entries.old.items }
    ensures ok { OnOk result (entries.new.items ≡ edited entries.old.items name value) }
    ensures err { OnErr result (entries.new.items ≡ entries.old.items) }
{
    match value {
        Some(value) => set(entries, name, value),
        None => {
            remove(entries, &name);
            Ok(())
        }
    }
}

fn set(entries: &mut Entries, name: TextBytes, value: Value) -> Result<(), Memory>
    requires { AreInOrder entries.old.items }
    ensures ok { OnOk result (entries.new.items ≡ edited entries.old.items name (Some value)) }
    ensures err { OnErr result (entries.new.items ≡ entries.old.items) }
{
    match find_place(entries, name.as_bytes()) {
        Ok(place) => {
            entries[place].1 = value;
            Ok(())
        }
        Err(place) => Ok(entries.insert(place, (name, value))?),
    }
}

fn remove(entries: &mut Entries, name: &TextBytes)
    requires { AreInOrder entries.old.items }
    ensures { entries.new.items ≡ edited entries.old.items name.now None }
{
    if let Ok(place) = find_place(entries, name.as_bytes()) {
        let _ = entries.remove(place);
    }
}

fn copy_entries(alloc: Global, entries: &[(TextBytes, Value)]) -> Result<Entries, Memory>
    ensures { IfOk result (λ copied. copied.items ≡ entries.now) }
{
    let mut copied = Vec::new(alloc);
    for (name, value) in entries {
        copied.push((name.again(alloc)?, value.copy(alloc)?))?;
    }
    Ok(copied)
}
