//! What is left of a line, from which parts are read one after the other.

ghost use Rattle.std.specs.Prelude.{◌≡◌, ◌++◌, ℕ, List};
ghost use Rattle.std.specs.Bool.{OnTrue, OnFalse};
ghost use Rattle.flux_journal.specs.Spelled.{BeginsValue, BeginsCode};
ghost use Rattle.flux_journal.specs.steps.Reading.{IsPartRead, IsWordRead, IsNotBehind};

use crate::cuts::behind;
use crate::faults::LineFault;
use flux_spelling::{read_decimal, read_value};
use flux_values::{Value, ValueFault};
use std::alloc::Global;

/// What is left of a line.
#[derive(Drop)]
pub struct Cursor<'a> {
    pub rest: &'a [u8],
}

impl Cursor<'_> {
    /// Goes past a word, if the rest begins with it.
    pub fn skip(&mut self, word: &[u8]) -> bool
        ensures found { OnTrue result (self.old.rest.now ≡ word.now ++ self.new.rest.now) }
        ensures stays { OnFalse result (self.new.rest.now ≡ self.old.rest.now) }
        ensures none { OnFalse result (IsNotBehind word.now self.old.rest.now) }
    {
        match behind(word, self.rest) {
            Some(rest) => {
                self.rest = rest;
                true
            }
            None => false,
        }
    }

    /// Goes past a word that has to be here.
    pub fn expect(&mut self, word: &[u8]) -> Result<(), LineFault>
        ensures { IsWordRead word.now self.old.rest.now self.new.rest.now result }
    {
        if self.skip(word) {
            Ok(())
        } else {
            Err(LineFault::BadLine)
        }
    }

    /// Goes past a value.
    pub fn value(&mut self, alloc: Global) -> Result<Value, LineFault>
        ensures { IsPartRead BeginsValue self.old.rest.now self.new.rest.now result }
    {
        match read_value(alloc, self.rest) {
            Ok((value, length)) => {
                self.rest = &self.rest[length..];
                Ok(value)
            }
            Err(ValueFault::Memory) => Err(LineFault::Memory),
            Err(ValueFault::BadValue { at: _ }) => Err(LineFault::BadLine),
            Err(ValueFault::TooLong { at: _ }) => Err(LineFault::BadLine),
        }
    }

    /// Goes past a code.
    pub fn code(&mut self) -> Result<u16, LineFault>
        ensures { IsPartRead BeginsCode self.old.rest.now self.new.rest.now result }
    {
        match read_decimal(self.rest, 65_535) {
            Some((code, length)) => {
                self.rest = &self.rest[length..];
                Ok(code as u16)
            }
            None => Err(LineFault::BadLine),
        }
    }
}
