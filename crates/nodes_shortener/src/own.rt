//! The library itself.

use crate::nodes::{answer, sig};
use flux_library::Library;
use flux_library::sessions::first_as_u64;
use flux_library::types::kind_spelled;
use flux_values::{Answer, Cell, Kind, List, Meaning, Memory, Sig, Value};
use std::alloc::Global;

/// The nodes of `nodes.rt`, and no predicates and session functions.
#[derive(Clone, Copy, Drop)]
pub struct Own;

impl Meaning for Own {
    ghost use Rattle.nodes_shortener.specs.Own.{own_meaning};

    ghost meaning = { λ _. own_meaning };
}

impl Library for Own {
    ghost use Rattle.nodes_shortener.specs.laws.Own.{own_lawful};

    fn kind(&self, ty: &[u8]) -> Option<Kind> {
        kind_spelled(ty)
    }

    fn node(&self, alloc: Global, name: &[u8]) -> Result<Option<Sig>, Memory> {
        sig(alloc, name)
    }

    fn predicate(&self, _name: &[u8]) -> Option<Kind> {
        None
    }

    fn session(&self, _alloc: Global, _name: &[u8]) -> Result<Option<List<Kind>>, Memory> {
        Ok(None)
    }

    fn call(
        &self,
        alloc: Global,
        name: &[u8],
        args: &[Value],
        cells: &[Cell],
    ) -> Result<Answer, Memory> {
        answer(alloc, name, args, cells)
    }

    fn test(&self, _name: &[u8], _arg: &Value) -> bool {
        false
    }

    fn id(&self, _name: &[u8], args: &[Value]) -> u64 {
        first_as_u64(args)
    }

    ghost lawful = { own_lawful };
}
