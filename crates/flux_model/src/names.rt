//! Distinct names, found by hash.

use flux_values::Memory;
use indexmap::IndexSet;
use std::alloc::Global;
use std::marker::Model;

/// Distinct names that are borrowed, each at its place from 0, seen as their list.
pub struct Names<'a> {
    set: IndexSet<&'a [u8]>,
}

impl<'a> Drop for Names<'a> {
    fn drop(self) {
        let Names { set } = self;
    }
}

impl<'a> Model for Names<'a> {
    ghost use Rattle.std.specs.Prelude.{List, ℕ, map};

    ghost Value = { List (List ℕ) };

    ghost view = { λ n. map (λ k. k.now) n.set.keys };
}

impl<'a> Names<'a> {
    ghost use Rattle.std.specs.Prelude.{◌≡◌, ℕ, Some, true, false, ◌++◌, ◌∷◌, [], IfSome, IfNone, OnOk, OnErr};
    ghost use Rattle.std.specs.List.{slice_get, list_any};
    ghost use Rattle.std.specs.Str.{bytes_eq};

    pub fn new(alloc: Global) -> Names<'a>
        ensures { result ≡ [] }
    {
        Names {
            set: IndexSet::new(alloc),
        }
    }

    /// Adds a name at the end, unless it is there.
    pub fn add(&mut self, name: &'a [u8]) -> Result<(), Memory>
        ensures new_ { list_any (bytes_eq name.now) self.old ≡ false
            → OnOk result (self.new ≡ self.old ++ name.now ∷ []) }
        ensures there { list_any (bytes_eq name.now) self.old ≡ true → OnOk result (self.new ≡ self.old) }
        ensures err { OnErr result (self.new ≡ self.old) }
    {
        self.set.insert(name)?;
        Ok(())
    }

    /// The place of a name.
    pub fn place(&self, name: &[u8]) -> Option<usize>
        ensures found { IfSome result (λ place. slice_get self.now place ≡ Some name.now) }
        ensures none { IfNone result ((place : ℕ) → slice_get self.now place ≡ Some name.now → ⊥) }
    {
        self.set.get_index_of(name)
    }
}
