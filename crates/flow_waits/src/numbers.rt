//! Sets of flows' numbers.

ghost use Rattle.std.specs.Prelude.{◌≡◌, ◌<◌, true, [], length, OnOk, OnErr, MatchOption};
ghost use Rattle.flow_waits.specs.steps.Waking.{has, IsMore, IsLess, IsEarliest, TakesLowest};

use flux_values::Memory;
use std::alloc::Global;
use std::collections::BTreeSet;
use std::marker::Model;

/// Numbers of flows, seen as their list in rising order.
#[derive(Drop)]
pub struct Numbers {
    set: BTreeSet<u32>,
}

impl Model for Numbers {
    ghost use Rattle.std.specs.Prelude.{List, ℕ};

    ghost Value = { List ℕ };

    ghost view = { λ n. n.set.keys };
}

impl Numbers {
    pub fn new(alloc: Global) -> Numbers
        ensures { result ≡ [] }
    {
        Numbers {
            set: BTreeSet::new(alloc),
        }
    }

    pub fn add(&mut self, flow: u32) -> Result<(), Memory>
        ensures ok { OnOk result (IsMore self.old self.new flow) }
        ensures err { OnErr result (self.new ≡ self.old) }
    {
        self.set.insert(flow)?;
        Ok(())
    }

    pub fn remove(&mut self, flow: u32)
        ensures less { IsLess self.old self.new flow }
        ensures fewer { has self.old flow ≡ true → length self.new < length self.old }
    {
        let _ = self.set.remove(&flow);
    }

    /// Takes the lowest number out.
    pub fn take_lowest(&mut self) -> Option<u32>
        ensures { MatchOption result ((self.old ≡ []) × (self.new ≡ []))
            (λ flow. TakesLowest self.old self.new flow) }
    {
        Some(self.set.pop_first()?)
    }

    /// The first number that is looked at, from one on upward and then from 0 on.
    pub fn first_from(&self, from: u32) -> Option<u32>
        ensures { MatchOption result (self.now ≡ []) (IsEarliest self.now from) }
    {
        match self.set.range(from..).next() {
            Some(flow) => Some(*flow),
            None => Some(*self.set.first()?),
        }
    }
}
