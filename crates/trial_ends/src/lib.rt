//! Why a program for trials came to no end, and the status that it ends with then.
#![tactic(auto)]

ghost use Rattle.std.specs.Prelude.{◌<◌};

use flux_values::Memory;
use std::alloc::{AllocError, AllocFailed};
use std::io::{self, ErrorKind};

/// Why a trial came to no end.
#[derive(Clone, Copy)]
pub enum Trouble {
    /// What is tried isn't as it must be, or can't be tried.
    Wrong,
    /// The words, or those of a line, are none that are known.
    Words,
    /// Words or output failed.
    System,
    Memory,
}

impl Trouble {
    /// The status that the program ends with, which is never that of success.
    pub fn code(self) -> u8
        ensures { 0 < result }
    {
        match self {
            Trouble::Wrong => 1,
            Trouble::Words => 2,
            Trouble::System => 6,
            Trouble::Memory => 12,
        }
    }
}

impl From<Memory> for Trouble {
    fn from(_memory: Memory) -> Trouble {
        Trouble::Memory
    }
}

impl From<AllocError> for Trouble {
    fn from(_e: AllocError) -> Trouble {
        Trouble::Memory
    }
}

impl<T: Drop> From<AllocFailed<T>> for Trouble {
    fn from(_e: AllocFailed<T>) -> Trouble {
        Trouble::Memory
    }
}

impl From<io::Error> for Trouble {
    fn from(e: io::Error) -> Trouble {
        match e.kind() {
            ErrorKind::OutOfMemory => Trouble::Memory,
            _ => Trouble::System,
        }
    }
}
