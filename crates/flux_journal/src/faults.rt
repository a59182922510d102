//! Why a line or a text was not read.

ghost use Rattle.std.specs.Prelude.{◌≡◌};
ghost use Rattle.flux_journal.specs.declared.faults.LineFault.TheVariants as line_faults;
ghost use Rattle.flux_journal.specs.declared.faults.JournalFault.TheVariants as faults;

use flux_values::Memory;

/// Why a line has no entry.
#[derive(Clone, Copy, PartialEq, Eq)]
pub enum LineFault {
    /// It is no event line of the program.
    BadLine,
    Memory,
}

impl From<Memory> for LineFault {
    ghost from_gives = { λ _ fault. fault ≡ line_faults.Memory };

    fn from(_memory: Memory) -> LineFault {
        LineFault::Memory
    }
}
/// Why a text has no journal.
#[derive(Clone, Copy, PartialEq, Eq)]
pub enum JournalFault {
    /// The first line, from 1, that is no event line of the program; or the first of all, where a head
    /// line has another form or another number of lines.
    BadLine { line: u64 },
    Memory,
}

impl From<Memory> for JournalFault {
    ghost from_gives = { λ _ fault. fault ≡ faults.Memory };

    fn from(_memory: Memory) -> JournalFault {
        JournalFault::Memory
    }
}
