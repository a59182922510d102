//! The rules that a journal can break.

use flux_values::Memory;
use std::alloc::{AllocError, AllocFailed};

/// What is wrong with a journal.
#[derive(Clone, Copy)]
pub enum Rule {
    /// The program's classes aren't in order of their names.
    ClassOrder,
    /// A key is taken that another flow holds against it, or that another flow waits for and came first.
    Take,
    /// A flow takes another key than the one that it waits for.
    TakeElsewhere,
    /// A flow waits that nobody blocks, or waits already.
    Wait,
    /// A key is dropped that the flow doesn't hold.
    Drop,
    /// Two flows are in sections that conflict.
    Section,
    /// A flow goes on that waits, or that has ended.
    GoesOn,
    /// A flow ends that holds a key or is in a section, or not all flows end.
    End,
    /// A call's arguments are other ones, or its answer is not its node's.
    Answer,
    /// A call puts something else than its node does.
    Put,
    /// A call emits something else than its node does.
    Emission,
    /// A flow's event is not the next one of its walk.
    Walk,
    /// An entry is of no flow.
    Flow,
}

/// A broken rule, or want of memory.
#[derive(Clone, Copy)]
pub enum Wrong {
    Breaks(Rule),
    Memory,
}

impl From<Memory> for Wrong {
    fn from(_memory: Memory) -> Wrong {
        Wrong::Memory
    }
}

impl From<AllocError> for Wrong {
    fn from(_e: AllocError) -> Wrong {
        Wrong::Memory
    }
}

impl<T: Drop> From<AllocFailed<T>> for Wrong {
    fn from(_e: AllocFailed<T>) -> Wrong {
        Wrong::Memory
    }
}

/// The rule is broken where this isn't so.
pub fn check_that(is_so: bool, rule: Rule) -> Result<(), Wrong> {
    if is_so {
        Ok(())
    } else {
        Err(Wrong::Breaks(rule))
    }
}
