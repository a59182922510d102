//! What a node answers, and what it may do with a cell.

use crate::lists::List;
use crate::texts::{Bytes, TextBytes};
use crate::values::Value;

/// How a constraint is held.
#[derive(Clone, Copy, PartialEq, Eq)]
pub enum Mode {
    Reader,
    Writer,
}

/// How a call ended: with values, or with a code from 1 to 255.
#[derive(PartialEq, Eq)]
pub enum CallResult {
    Good(List<Value>),
    Bad(u16),
}

impl Drop for CallResult {
    fn drop(self) {
        match self {
            CallResult::Good(_) => {}
            CallResult::Bad(_) => {}
        }
    }
}

/// A change of a cell: it sets a name, or removes it where there is no value.
#[derive(PartialEq, Eq)]
pub struct Put {
    pub cell: TextBytes,
    pub name: TextBytes,
    pub value: Option<Value>,
}

impl Drop for Put {
    fn drop(self) {
        let Put { cell, name, value } = self;
    }
}

/// All that a call of a node answers.
#[derive(PartialEq, Eq)]
pub struct Answer {
    pub result: CallResult,
    pub puts: List<Put>,
    pub emits: Bytes,
}

impl Drop for Answer {
    fn drop(self) {
        let Answer {
            result,
            puts,
            emits,
        } = self;
    }
}
