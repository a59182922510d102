//! The answers of calls that failed.

ghost use Rattle.std.specs.Prelude.{◌≡◌, ◌≤◌};
ghost use Rattle.flux_outside.specs.Causes.{Rose, one_fault_more};
ghost use Rattle.flux_outside.specs.declared.faults.StoreFault.TheVariants as causes;

use flux_values::Memory;

/// A call failed, and the count of faults rose.
#[derive(Clone, Copy, Debug, PartialEq, Eq)]
pub struct Failed;

/// Why a store gave no answer.
#[derive(Clone, Copy, Debug, PartialEq, Eq)]
pub enum StoreFault {
    /// The store failed, and its count of faults rose.
    Failed,
    Memory,
}

impl From<Memory> for StoreFault {
    ghost from_gives = { λ _ e. e ≡ causes.Memory };

    fn from(_e: Memory) -> StoreFault {
        StoreFault::Memory
    }
}

impl From<Failed> for StoreFault {
    ghost from_gives = { λ _ e. e ≡ causes.Failed };

    fn from(_e: Failed) -> StoreFault {
        StoreFault::Failed
    }
}

/// Counts a failure. The count stops at its type's end.
pub fn count_failure(faults: &mut u64) -> Failed
    ensures counted { faults.new ≡ one_fault_more faults.old }
    ensures later { faults.old ≤ faults.new }
    ensures rose { Rose faults.old faults.new }
{
    *faults = faults.saturating_add(1);
    Failed
}
