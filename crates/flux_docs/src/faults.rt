//! Why documents were not read.

ghost use Rattle.std.specs.Prelude.{◌≡◌};
ghost use Rattle.flux_docs.specs.declared.faults.DocsFault.TheVariants as faults;
ghost use Rattle.flux_docs.specs.Causes.{fault_of};

use flux_outside::{Failed, StoreFault};
use flux_values::Memory;

/// Why documents were not read.
#[derive(Clone, Copy, PartialEq, Eq)]
pub enum DocsFault {
    /// The folder failed, and its count of faults rose.
    Failed,
    /// There is no such folder.
    Missing,
    /// The folder is past a limit.
    TooLong,
    Memory,
}

impl From<Failed> for DocsFault {
    ghost from_gives = { λ _ fault. fault ≡ faults.Failed };

    fn from(_e: Failed) -> DocsFault {
        DocsFault::Failed
    }
}

impl From<Memory> for DocsFault {
    ghost from_gives = { λ _ fault. fault ≡ faults.Memory };

    fn from(_e: Memory) -> DocsFault {
        DocsFault::Memory
    }
}

impl From<StoreFault> for DocsFault {
    ghost from_gives = { λ e fault. fault ≡ fault_of e };

    fn from(e: StoreFault) -> DocsFault {
        match e {
            StoreFault::Failed => DocsFault::Failed,
            StoreFault::Memory => DocsFault::Memory,
        }
    }
}
