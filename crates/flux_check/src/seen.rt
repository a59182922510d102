//! Constraints that were seen on nodes.

ghost use Rattle.std.specs.Prelude.{◌≡◌, [], OnOk};
ghost use Rattle.flux_check.specs.steps.Seen.{has_flag, with_flag};

use flux_values::Memory;
use indexmap::IndexSet;
use std::alloc::Global;
use std::marker::Model;

/// Names of nodes, each with the name of a constraint and a flag. What the flag says is for the caller to choose.
#[derive(Drop)]
pub struct Seen<'a> {
    set: IndexSet<(&'a [u8], &'a [u8], bool)>,
}

impl<'a> Model for Seen<'a> {
    ghost use Rattle.std.specs.Prelude.{List, ℕ, Bool, map};

    ghost Value = { List (List ℕ × List ℕ × Bool) };

    ghost view = { λ s. map (λ k. (k.0.now, k.1.now, k.2)) s.set.keys };
}

impl<'a> Seen<'a> {
    pub fn new(alloc: Global) -> Seen<'a>
        ensures { result ≡ [] }
    {
        Seen {
            set: IndexSet::new(alloc),
        }
    }

    pub fn add(&mut self, node: &'a [u8], name: &'a [u8], flag: bool) -> Result<(), Memory>
        ensures { OnOk result (self.new ≡ with_flag self.old node.now name.now flag) }
    {
        self.set.insert((node, name, flag))?;
        Ok(())
    }

    pub fn has(&self, node: &[u8], name: &[u8], flag: bool) -> bool
        ensures { result ≡ has_flag self.now node.now name.now flag }
    {
        self.set.contains(&(node, name, flag))
    }
}
