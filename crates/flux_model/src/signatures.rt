//! The types of nodes.

ghost use Rattle.std.specs.Prelude.{◌≡◌};
ghost use Rattle.flux_model.specs.Types.{same_types};

use flux_values::{Kind, List, TextBytes};

/// A type as it is spelled, and the kind that the library has for it.
pub struct TypeText {
    pub words: TextBytes,
    pub kind: Kind,
}

impl Drop for TypeText {
    fn drop(self) {
        let TypeText { words, kind } = self;
    }
}

pub struct NodeSig {
    pub ins: List<TypeText>,
    pub outs: List<TypeText>,
}

impl Drop for NodeSig {
    fn drop(self) {
        let NodeSig { ins, outs } = self;
    }
}

/// One signature for each node of a program.
pub struct Sigs {
    pub nodes: List<NodeSig>,
}

impl Drop for Sigs {
    fn drop(self) {
        let Sigs { nodes } = self;
    }
}

/// Whether types are spelled alike, in number and order.
pub fn same_types(a: &[TypeText], b: &[TypeText]) -> bool
    ensures { result ≡ same_types a.now b.now }
{
    let mut rest = a;
    let mut left = b;
    while let [ty, others @ ..] = rest {
        let [other, more @ ..] = left else {
            return false;
        };
        if ty.words.as_bytes() != other.words.as_bytes() {
            return false;
        }
        rest = others;
        left = more;
    }
    left.is_empty()
}
