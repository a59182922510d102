//! Bencoded values.

ghost use Rattle.bencoding.specs.declared.values.BenFault.TheVariants as faults;
ghost use Rattle.std.specs.Prelude.{◌≡◌};

use flux_values::{Bytes, Memory};
use std::alloc::AllocFailed;

/// The greatest length of a string or a key, in bytes.
pub const STRING_LIMIT: usize = 65_536;

/// How many lists and dictionaries may be nested in one another.
pub const DEPTH_LIMIT: u8 = 8;

/// A bencoded value.
#[derive(Drop)]
pub enum Ben {
    Int(i64),
    Text(Bytes),
    Items(Vec<Ben>),
    /// The keys rise strictly, bytewise.
    Dict(Vec<Field<Ben>>),
}

/// A key of a dictionary, with its value.
#[derive(Drop)]
pub struct Field<V> {
    pub key: Bytes,
    pub value: V,
}

/// Why no value was read.
#[derive(Clone, Copy, PartialEq, Eq)]
pub enum BenFault {
    /// No value's spelling begins the bytes. None begins with those up to and with this place, which
    /// is their length where some spelling begins with all of them.
    BadBen { at: usize },
    Memory,
}

impl From<Memory> for BenFault {
    ghost from_gives = { λ _ fault. fault ≡ faults.Memory };

    fn from(_memory: Memory) -> BenFault {
        BenFault::Memory
    }
}

impl<T: Drop> From<AllocFailed<T>> for BenFault {
    ghost from_gives = { λ _ fault. fault ≡ faults.Memory };

    fn from(_e: AllocFailed<T>) -> BenFault {
        BenFault::Memory
    }
}
