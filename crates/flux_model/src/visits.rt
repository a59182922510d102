//! Numbers of nodes that have been visited, each once, in the order of their first visits.

ghost use Rattle.std.specs.Prelude.{◌≡◌, [], OnOk, length, slice_get, nat_eq};
ghost use Rattle.std.specs.List.{list_any, list_all};
ghost use Rattle.flux_model.specs.Visits.{with_number, with_all};

use crate::programs::NodeNo;
use flux_values::Memory;
use indexmap::IndexSet;
use std::alloc::Global;
use std::marker::Model;

/// Numbers of nodes, each once.
pub struct Visits {
    set: IndexSet<u32>,
}

impl Drop for Visits {
    fn drop(self) {
        let Visits { set } = self;
    }
}

impl Model for Visits {
    ghost use Rattle.std.specs.Prelude.{List, ℕ};

    ghost Value = { List ℕ };

    ghost view = { λ v. v.set.keys };
}

impl Visits {
    pub fn new(alloc: Global) -> Visits
        ensures { result ≡ [] }
    {
        Visits {
            set: IndexSet::new(alloc),
        }
    }

    /// Adds a number at the end, where it isn't there yet.
    pub fn add(&mut self, number: u32) -> Result<(), Memory>
        ensures { OnOk result (self.new ≡ with_number self.old number) }
    {
        self.set.insert_full(number)?;
        Ok(())
    }

    /// Adds the numbers of nodes, one after the other.
    pub fn add_all(&mut self, nodes: &[NodeNo]) -> Result<(), Memory>
        ensures { OnOk result (self.new ≡ with_all self.old nodes.now) }
    {
        for node in nodes {
            self.add(node.0)?;
        }
        Ok(())
    }

    pub fn has(&self, number: u32) -> bool
        ensures { result ≡ list_any (nat_eq number) self.now }
    {
        self.set.contains(&number)
    }

    pub fn has_all(&self, nodes: &[NodeNo]) -> bool
        ensures { result ≡ list_all (λ node. list_any (nat_eq node.0) self.now) nodes.now }
    {
        nodes.iter().all(|node| self.has(node.0))
    }

    /// The number at a place.
    pub fn get(&self, place: usize) -> Option<u32>
        ensures { result ≡ slice_get self.now place }
    {
        self.set.get_index(place).copied()
    }

    pub fn len(&self) -> usize
        ensures { result ≡ length self.now }
    {
        self.set.len()
    }
}
