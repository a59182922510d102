//! What the predicates of a text take.

ghost use Rattle.std.specs.Prelude.{◌≡◌, ◌∷◌, IfOk, OnOk, [], fold};
ghost use Rattle.flux_types.specs.Rows.{predicates_of};
ghost use Rattle.flux_types.specs.steps.Passing.{kind_in, with_predicate, with_typedef};

use flux_library::Library;
use flux_syntax::{Decl, Names};
use flux_values::{Kind, List, Memory};
use std::alloc::Global;

/// The names of predicates, each with what its function takes, if the library has it.
#[derive(Drop)]
pub struct Predicates<'a> {
    names: Names<'a>,
    kinds: List<Option<Kind>>,
}

impl<'a> Predicates<'a> {
    /// Adds a name, where it isn't there yet.
    fn add(&mut self, name: &'a [u8], kind: Option<Kind>) -> Result<(), Memory>
        ensures { OnOk result (self.new ≡ with_predicate self.old name.now kind) }
    {
        if self.names.has(name) {
            return Ok(());
        }
        self.names.add(name)?;
        self.kinds.add(kind)
    }

    fn add_from<L: Library>(&mut self, library: &L, decl: &'a Decl) -> Result<(), Memory>
        ensures { OnOk result
            (self.new ≡ with_typedef (L.meaning library.now) self.old decl.now) }
    {
        match decl {
            Decl::Typedef { name, function } => {
                let kind = library.predicate(function.text.as_bytes());
                self.add(name.text.as_bytes(), kind)
            }
            _ => Ok(()),
        }
    }

    /// Those of all `typedef` lines; the first line of a name counts.
    pub fn of<L: Library>(
        alloc: Global,
        library: &L,
        decls: &'a [Decl],
    ) -> Result<Predicates<'a>, Memory>
        ensures { IfOk result (λ table. table ≡ fold (with_typedef (L.meaning library.now))
            (record { names = []; kinds = [] }) decls.now) }
    {
        let mut table = Predicates {
            names: Names::new(alloc),
            kinds: List::new(alloc),
        };
        for decl in decls {
            table.add_from(library, decl)?;
        }
        Ok(table)
    }

    /// What the predicate of a name takes.
    pub fn find(&self, name: &[u8]) -> Option<Kind>
        ensures { result ≡ kind_in self.now.names self.now.kinds name.now }
    {
        match self.kinds.get(self.names.place(name)) {
            Some(kind) => *kind,
            None => None,
        }
    }
}
