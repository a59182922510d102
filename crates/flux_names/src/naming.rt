//! The names of nodes.

ghost use Rattle.std.specs.Prelude.{◌≡◌, ◌++◌, OnOk, option_copied};
ghost use Rattle.flux_syntax.specs.Words.{and_name, unless_known, names_after, first_words_after};

use crate::sorts::Sort;
use crate::words::Words;
use flux_syntax::{Decl, Names, Word};
use flux_values::Memory;

/// The names of nodes, in order of the lines that name them first, and the words that do.
#[derive(Drop)]
pub struct NodeTable<'a> {
    pub names: Names<'a>,
    pub words: Words<'a>,
}

impl<'a> NodeTable<'a> {
    fn add(&mut self, word: Option<&'a Word>) -> Result<(), Memory>
        ensures names { OnOk result
            (self.new.names ≡ and_name self.old.names (option_copied word.entry)) }
        ensures words { OnOk result
            (self.new.words ≡
            self.old.words ++ unless_known self.old.names (option_copied word.entry)) }
    {
        let Some(word) = word else {
            return Ok(());
        };
        let name = word.text.as_bytes();
        if !self.names.has(name) {
            self.names.add(name)?;
            self.words.add(word)?;
        }
        Ok(())
    }

    /// Adds the names of declarations, and the words that name them first.
    pub fn add_lines(&mut self, decls: &'a [Decl]) -> Result<(), Memory>
        ensures names { OnOk result (self.new.names ≡ names_after self.old.names decls.now) }
        ensures words { OnOk result
            (self.new.words ≡ self.old.words ++ first_words_after self.old.names decls.now) }
    {
        for decl in decls {
            self.add(Sort::Naming.word(decl))?;
        }
        Ok(())
    }
}
