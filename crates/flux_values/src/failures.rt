//! Why a call of this crate answers no value.

ghost use Rattle.std.specs.Prelude.{◌≡◌};
ghost use Rattle.flux_values.specs.declared.failures.ValueFault.TheVariants as faults;

use std::alloc::{AllocError, AllocFailed};

/// Memory ran out. It is the only answer that may come at any time.
#[derive(Clone, Copy, Debug, PartialEq, Eq)]
pub struct Memory;

impl From<AllocError> for Memory {
    fn from(_e: AllocError) -> Memory {
        Memory
    }
}

impl<T: Drop> From<AllocFailed<T>> for Memory {
    fn from(_e: AllocFailed<T>) -> Memory {
        Memory
    }
}

/// Why bytes were not made a text.
#[derive(Clone, Copy, Debug, PartialEq, Eq)]
pub enum TextFault {
    /// There are more than 65,536 bytes.
    TooLong,
    Memory,
}

/// Why no value was read.
#[derive(Clone, Copy, PartialEq, Eq)]
pub enum ValueFault {
    /// No value's spelling begins the bytes.
    BadValue { at: usize },
    /// A text's spelling goes past 65,536 bytes.
    TooLong { at: usize },
    Memory,
}

impl From<Memory> for ValueFault {
    ghost from_gives = { λ _ fault. fault ≡ faults.Memory };

    fn from(_memory: Memory) -> ValueFault {
        ValueFault::Memory
    }
}

impl<T: Drop> From<AllocFailed<T>> for ValueFault {
    ghost from_gives = { λ _ fault. fault ≡ faults.Memory };

    fn from(_e: AllocFailed<T>) -> ValueFault {
        ValueFault::Memory
    }
}
