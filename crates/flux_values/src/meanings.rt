//! What a library of nodes means, for contracts alone: its types, nodes, predicates and session
//! functions.

use crate::answers::Mode;
use crate::lists::List;
use crate::texts::TextBytes;
use crate::values::Kind;

/// What a node is to a server: an inner node, or a source of items, some of which read a link's
/// head or line.
#[derive(Clone, Copy, PartialEq, Eq)]
pub enum Role {
    Plain,
    Source,
    HeadSource,
    LineSource,
}

/// A cell that a node uses, and how.
#[derive(PartialEq, Eq)]
pub struct CellUse {
    pub name: TextBytes,
    pub mode: Mode,
}

impl Drop for CellUse {
    fn drop(self) {
        let CellUse { name, mode } = self;
    }
}

/// What a library says of a node.
#[derive(PartialEq, Eq)]
pub struct Sig {
    pub ins: List<Kind>,
    pub outs: List<Kind>,
    pub cells: List<CellUse>,
    pub role: Role,
}

impl Drop for Sig {
    fn drop(self) {
        let Sig {
            ins,
            outs,
            cells,
            role,
        } = self;
    }
}

/// What a library means. It has no call: programs over a library say by its member what they
/// promise.
pub trait Meaning {
    ghost use Rattle.flux_values.specs.Meanings.{LibraryMeaning};

    ghost meaning: { Self → LibraryMeaning };
}
