//! Names of lines by what they are there for.

ghost use Rattle.std.specs.Prelude.{◌≡◌, option_copied, OnOk};
ghost use Rattle.flux_names.specs.steps.Sorts.{word_of, names_by_after};

use flux_syntax::{Decl, Names, Word};
use flux_values::Memory;

/// What a line says of a name.
#[derive(Clone, Copy)]
pub enum Sort {
    /// It is a signature or a flow.
    Naming,
    /// It is a `typedef`.
    Defined,
    /// It is a `source` line.
    Sourced,
    /// It is the target of a `source` line.
    Targeted,
    /// It is a `handle` line without codes.
    Handled,
    /// It is a `session` line.
    Sessioned,
}

impl Sort {
    /// The name that a line says it of.
    pub fn word(self, decl: &Decl) -> Option<&Word>
        ensures { option_copied result ≡ word_of self decl.now }
    {
        match (self, decl) {
            (Sort::Naming, Decl::Signature { name, .. } | Decl::Flow { name, .. }) => Some(name),
            (Sort::Defined, Decl::Typedef { name, .. }) => Some(name),
            (Sort::Sourced, Decl::Source { name, .. }) => Some(name),
            (Sort::Targeted, Decl::Source { target, .. }) => Some(target),
            (Sort::Handled, Decl::Handler { node, codes, .. }) if codes.is_empty() => Some(node),
            (Sort::Sessioned, Decl::Session { source, .. }) => Some(source),
            _ => None,
        }
    }

    /// Adds the names of this sort that aren't there yet, in order of the text.
    pub fn add_names<'a>(self, names: &mut Names<'a>, decls: &'a [Decl]) -> Result<(), Memory>
        ensures { OnOk result (names.new ≡ names_by_after (word_of self) names.old decls.now) }
    {
        for decl in decls {
            names.add_word(self.word(decl))?;
        }
        Ok(())
    }
}
