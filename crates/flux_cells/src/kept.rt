//! The cells that aren't empty, by their keys.

ghost use Rattle.std.specs.Prelude.{◌≡◌, ◌≢◌, [], IfOk, OnOk, OnErr, MatchOption};
ghost use Rattle.flux_values.specs.Cells.{no_cell};
ghost use Rattle.flux_cells.specs.Kept.{cells_of};
ghost use Rattle.flux_cells.specs.Applied.{applied};

use crate::alone::put_alone;
use crate::touched::{copies_under, put_all, settle};
use flow_model::Key;
use flux_model::Program;
use flux_values::{Cell, List, Memory, Put};
use std::alloc::Global;
use std::collections::BTreeMap;
use std::marker::Model;

/// A cell for each key.
pub struct Cells {
    cells: BTreeMap<Key, Cell>,
    alloc: Global,
}

impl Drop for Cells {
    fn drop(self) {
        let Cells { cells, alloc } = self;
    }
}

impl Model for Cells {
    ghost use Rattle.flux_cells.specs.Kept.{Kept, NoneIsEmpty};
    ghost use Rattle.std.specs.Coded.{coded_list, coded×};
    ghost use Rattle.flux_values.specs.contracts.cells.Cell as cell;
    ghost use Rattle.flow_model.specs.contracts.journals.Key as key;

    ghost Value = { Kept };

    ghost coded = { coded_list (coded× key.the_row.coded cell.the_row.coded) };

    ghost view = { λ c. c.cells.entries };

    ghost invariant = { λ c. NoneIsEmpty c.cells.entries };
}

impl Cells {
    /// Each cell is empty.
    pub fn new(alloc: Global) -> Cells
        ensures { result ≡ [] }
    {
        Cells {
            cells: BTreeMap::new(alloc),
            alloc,
        }
    }

    /// The cell of a key, unless it is empty.
    pub fn cell(&self, key: Key) -> Option<&Cell>
        ensures { MatchOption result (cells_of self.now key ≡ no_cell)
            (λ cell. (cell.now ≡ cells_of self.now key) × (cell.now ≢ no_cell)) }
    {
        self.cells.get(&key)
    }

    /// Applies puts in order, each on the cell of that key whose class has the put's cell name. A put under a name of
    /// none of the keys changes nothing.
    pub fn apply(&mut self, keys: &[Key], puts: &List<Put>, p: &Program) -> Result<(), Memory>
        ensures ok { OnOk result (cells_of self.new ≡ applied p.now keys.now (cells_of self.old) puts.now) }
        ensures err { OnErr result (cells_of self.new ≡ cells_of self.old) }
    {
        if let [put] = puts.as_slice() {
            return put_alone(self.alloc, &mut self.cells, keys, put, p);
        }
        let mut touched = copies_under(self.alloc, &self.cells, keys)?;
        put_all(self.alloc, &mut touched, puts.as_slice(), p)?;
        settle(self.alloc, &mut self.cells, keys, touched)
    }

    /// The same cells once more.
    pub fn copy(&self) -> Result<Cells, Memory>
        ensures { IfOk result (λ copied. cells_of copied ≡ cells_of self.now) }
    {
        let mut cells = BTreeMap::new(self.alloc);
        for (key, cell) in &self.cells {
            drop(cells.insert(*key, cell.copy()?)?);
        }
        Ok(Cells {
            cells,
            alloc: self.alloc,
        })
    }
}
