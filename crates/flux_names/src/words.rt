//! Words of declarations, and copies of names.

ghost use Rattle.std.specs.Prelude.{◌≡◌, ◌≤◌, ◌++◌, ◌∷◌, [], IfOk, OnOk, length};
ghost use Rattle.flux_names.specs.steps.Picks.{words_now};

use flux_syntax::Word;
use flux_values::{Memory, TextBytes, TextFault};
use std::alloc::Global;
use std::marker::Model;

/// Words of declarations, in order.
#[derive(Drop)]
pub struct Words<'a> {
    words: Vec<&'a Word>,
}

impl<'a> Model for Words<'a> {
    ghost use Rattle.std.specs.Prelude.{List, map};
    ghost use Rattle.flux_syntax.specs.declared.declarations.Word.{Word};

    ghost Value = { List Word };

    ghost view = { λ w. map (λ word. word.now) w.words.items };
}

impl<'a> Words<'a> {
    pub fn new(alloc: Global) -> Words<'a>
        ensures { result ≡ [] }
    {
        Words {
            words: Vec::new(alloc),
        }
    }

    /// Adds a word at the end.
    pub fn add(&mut self, word: &'a Word) -> Result<(), Memory>
        ensures { OnOk result (self.new ≡ self.old ++ word.now ∷ []) }
    {
        Ok(self.words.push(word)?)
    }

    pub fn as_slice(&self) -> &[&'a Word]
        ensures { words_now result.now ≡ self.now }
    {
        self.words.as_slice()
    }
}

/// A name once more. No word has more than 65,536 bytes.
pub fn copied_name(alloc: Global, name: &[u8]) -> Result<TextBytes, Memory>
    requires { length name.now ≤ 65536 }
    ensures { IfOk result (λ copied. copied ≡ name.now) }
{
    match TextBytes::copy(alloc, name) {
        Ok(copied) => Ok(copied),
        Err(TextFault::TooLong) => unreachable!(),
        Err(TextFault::Memory) => Err(Memory),
    }
}
