//! The names that a store was asked for, for proofs alone.

ghost use Rattle.std.specs.Prelude.{◌≡◌, ℕ, List, [], ◌∷◌, ◌++◌};
ghost use Rattle.std.specs.Borrow.{ftrue};
ghost use Rattle.std.specs.Coded.{coded_list, coded_ℕ};

use std::marker::Model;

/// Names in the order in which they were asked for. It takes no memory, and its methods do nothing when they run.
pub struct AskedNames {
    pub ghost names: { List (List ℕ) } by { coded_list (coded_list coded_ℕ) },
}

impl Drop for AskedNames {
    fn drop(self) {
        let AskedNames {} = self;
    }
}

impl Model for AskedNames {
    ghost also_owns = { λ _. ftrue };
}

impl AskedNames {
    /// No name yet.
    pub fn new() -> AskedNames
        ensures { result.names ≡ [] }
    {
        AskedNames {}
    }

    /// Adds a name at the end.
    pub fn add(&mut self, _name: &[u8])
        ensures { self.new.names ≡ self.old.names ++ _name.now ∷ [] }
    {}
}
