//! What can be wrong with a program's text.

ghost use Rattle.std.specs.Prelude.{◌≡◌};
ghost use Rattle.flux_faults.specs.declared.faults.CheckFault.TheVariants as faults;
ghost use Rattle.flux_faults.specs.Faults.{name_of, number_of};

use flux_values::{List, Memory, TextBytes};

/// The kinds of faults, each under its number.
#[derive(Clone, Copy, PartialEq, Eq)]
pub enum FaultKind {
    /// The text has more than 1,048,576 bytes.
    TooLong,
    /// A byte outside comments begins no token.
    BadByte,
    /// A `/*` has no `*/`.
    UnclosedComment,
    /// The tokens are no program.
    Unexpected,
    /// Two lines name one thing.
    TwiceNamed,
    /// A name has neither signature nor flow.
    UnknownNode,
    /// The library has no kind for a parameter's type.
    UnknownType,
    /// A signature's library name isn't in the library.
    NotInLibrary,
    /// A signature's kinds differ from the library's.
    UnlikeLibrary,
    /// A predicate's function isn't in the library, or a pattern names none.
    UnknownPredicate,
    /// A session function isn't in the library.
    UnknownSession,
    /// The node of a source line isn't a source, or a session's node has no source line.
    NotASource,
    /// A source is where another node is wanted.
    SourceMisused,
    /// There are more than 4,096 nodes or 256 classes.
    TooMany,
    /// A node leads to itself.
    Cycle,
    /// All cases of a flow are empty.
    NoSignature,
    /// A node's outputs differ from the next one's inputs.
    JoinTypes,
    /// A pattern list has another length than the node's inputs.
    CaseCount,
    /// A case's first inputs or last outputs differ from the node's.
    CaseTypes,
    /// A predicate's kind differs from that of the input in its place.
    PredicateType,
    /// A handler's inputs differ from its node's.
    HandlerTypes,
    /// A source's outputs differ from its target's inputs.
    SourceTypes,
    /// A session function's kinds differ from those of the source's outputs.
    SessionTypes,
    /// A node has a name in both scopes.
    BothScopes,
    /// A node uses a cell without a constraint on it.
    Unprotected,
    /// A source without a session leads to a session constraint.
    NoSession,
    /// The sources' sizes sum to more than 65,536.
    PlanTooLarge,
    /// A code isn't 1 to 256 in decimal without leading zeros, or was named for its node already.
    BadCode,
}

impl FaultKind {
    /// The fault's number in its line.
    pub fn number(self) -> u64
        ensures { result ≡ number_of self }
    {
        match self {
            FaultKind::TooLong => 1,
            FaultKind::BadByte => 2,
            FaultKind::UnclosedComment => 3,
            FaultKind::Unexpected => 4,
            FaultKind::TwiceNamed => 5,
            FaultKind::UnknownNode => 6,
            FaultKind::UnknownType => 7,
            FaultKind::NotInLibrary => 8,
            FaultKind::UnlikeLibrary => 9,
            FaultKind::UnknownPredicate => 10,
            FaultKind::UnknownSession => 11,
            FaultKind::NotASource => 12,
            FaultKind::SourceMisused => 13,
            FaultKind::TooMany => 14,
            FaultKind::Cycle => 15,
            FaultKind::NoSignature => 16,
            FaultKind::JoinTypes => 17,
            FaultKind::CaseCount => 18,
            FaultKind::CaseTypes => 19,
            FaultKind::PredicateType => 20,
            FaultKind::HandlerTypes => 21,
            FaultKind::SourceTypes => 22,
            FaultKind::SessionTypes => 23,
            FaultKind::BothScopes => 24,
            FaultKind::Unprotected => 25,
            FaultKind::NoSession => 26,
            FaultKind::PlanTooLarge => 27,
            FaultKind::BadCode => 28,
        }
    }

    /// The fault's name in its line.
    pub fn name(self) -> &'static [u8]
        ensures { result.now ≡ name_of self }
    {
        match self {
            FaultKind::TooLong => b"TooLong",
            FaultKind::BadByte => b"BadByte",
            FaultKind::UnclosedComment => b"UnclosedComment",
            FaultKind::Unexpected => b"Unexpected",
            FaultKind::TwiceNamed => b"TwiceNamed",
            FaultKind::UnknownNode => b"UnknownNode",
            FaultKind::UnknownType => b"UnknownType",
            FaultKind::NotInLibrary => b"NotInLibrary",
            FaultKind::UnlikeLibrary => b"UnlikeLibrary",
            FaultKind::UnknownPredicate => b"UnknownPredicate",
            FaultKind::UnknownSession => b"UnknownSession",
            FaultKind::NotASource => b"NotASource",
            FaultKind::SourceMisused => b"SourceMisused",
            FaultKind::TooMany => b"TooMany",
            FaultKind::Cycle => b"Cycle",
            FaultKind::NoSignature => b"NoSignature",
            FaultKind::JoinTypes => b"JoinTypes",
            FaultKind::CaseCount => b"CaseCount",
            FaultKind::CaseTypes => b"CaseTypes",
            FaultKind::PredicateType => b"PredicateType",
            FaultKind::HandlerTypes => b"HandlerTypes",
            FaultKind::SourceTypes => b"SourceTypes",
            FaultKind::SessionTypes => b"SessionTypes",
            FaultKind::BothScopes => b"BothScopes",
            FaultKind::Unprotected => b"Unprotected",
            FaultKind::NoSession => b"NoSession",
            FaultKind::PlanTooLarge => b"PlanTooLarge",
            FaultKind::BadCode => b"BadCode",
        }
    }
}

/// A line and a column, both from 1. Columns count bytes.
#[derive(Clone, Copy, PartialEq, Eq)]
pub struct Place {
    pub line: u32,
    pub column: u32,
}

/// A fault at a byte of the text, counted from 0. The path is empty unless the kind is `Cycle`.
pub struct StaticFault {
    pub kind: FaultKind,
    pub at: u32,
    pub path: List<TextBytes>,
}

impl Drop for StaticFault {
    fn drop(self) {
        let StaticFault { kind, at, path } = self;
    }
}

/// Why a static part refuses a text.
#[derive(Drop)]
pub enum CheckFault {
    Static(StaticFault),
    Memory,
}

impl From<Memory> for CheckFault {
    ghost from_gives = { λ _ fault. fault ≡ faults.Memory };

    fn from(_e: Memory) -> CheckFault {
        CheckFault::Memory
    }
}
