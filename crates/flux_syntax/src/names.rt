//! Tables of distinct names, each at its place.

ghost use Rattle.std.specs.Prelude.{◌≡◌, ◌≤◌, [], OnOk, length, option_copied};
ghost use Rattle.std.specs.List.{position_or_len};
ghost use Rattle.std.specs.Str.{bytes_eq};
ghost use Rattle.flux_syntax.specs.Names.{with_name};
ghost use Rattle.flux_syntax.specs.Words.{known, and_name};

use crate::declarations::Word;
use flux_values::Memory;
use indexmap::IndexSet;
use std::alloc::Global;
use std::marker::Model;

/// Distinct names in the order in which they came, found by hash.
pub struct Names<'a> {
    set: IndexSet<&'a [u8]>,
}

impl<'a> Drop for Names<'a> {
    fn drop(self) {
        let Names { set } = self;
    }
}

impl<'a> Model for Names<'a> {
    ghost use Rattle.std.specs.Prelude.{List, ℕ, map};

    ghost Value = { List (List ℕ) };

    ghost view = { λ n. map (λ k. k.now) n.set.keys };
}

impl<'a> Names<'a> {
    pub fn new(alloc: Global) -> Names<'a>
        ensures { result ≡ [] }
    {
        Names {
            set: IndexSet::new(alloc),
        }
    }

    /// Adds a name at the end, where it isn't there yet.
    pub fn add(&mut self, name: &'a [u8]) -> Result<(), Memory>
        ensures { OnOk result (self.new ≡ with_name self.old name.now) }
    {
        self.set.insert(name)?;
        Ok(())
    }

    /// Adds the name of a word, if there is one.
    pub fn add_word(&mut self, word: Option<&'a Word>) -> Result<(), Memory>
        ensures { OnOk result (self.new ≡ and_name self.old (option_copied word.entry)) }
    {
        match word {
            Some(word) => self.add(word.text.as_bytes()),
            None => Ok(()),
        }
    }

    /// Whether a name is there.
    pub fn has(&self, name: &[u8]) -> bool
        ensures { result ≡ known self.now name.now }
    {
        self.set.contains(name)
    }

    /// The place of a name; the number of names where it isn't there.
    pub fn place(&self, name: &[u8]) -> usize
        ensures place { result ≡ position_or_len (bytes_eq name.now) self.now }
        ensures within { result ≤ length self.now }
    {
        self.set.get_index_of(name).unwrap_or(self.set.len())
    }

    pub fn len(&self) -> usize
        ensures { result ≡ length self.now }
    {
        self.set.len()
    }
}
