//! The library itself.

use crate::nodes::Node;
use crate::predicates::{asked, holds};
use flux_library::Library;
use flux_library::sessions::first_as_u64;
use flux_library::signatures::kinds;
use flux_library::types::kind_spelled;
use flux_values::{Answer, Bytes, CallResult, Cell, Kind, List, Meaning, Memory, Sig, Value};
use std::alloc::Global;

/// The nodes of a tracker, which keep swarms in the cell `swarms`, with the source `Listen`.
#[derive(Clone, Copy, Drop)]
pub struct Tracker;

impl Meaning for Tracker {
    ghost use Rattle.nodes_tracker.specs.Trackers.{tracker_meaning};

    ghost meaning = { λ _. tracker_meaning };
}

impl Library for Tracker {
    ghost use Rattle.nodes_tracker.specs.laws.Trackers.{tracker_lawful};

    fn kind(&self, ty: &[u8]) -> Option<Kind> {
        kind_spelled(ty)
    }

    fn node(&self, alloc: Global, name: &[u8]) -> Result<Option<Sig>, Memory> {
        match Node::named(name) {
            Some(node) => Ok(Some(node.sig(alloc)?)),
            None => Ok(None),
        }
    }

    fn predicate(&self, name: &[u8]) -> Option<Kind> {
        asked(name)
    }

    fn session(&self, alloc: Global, name: &[u8]) -> Result<Option<List<Kind>>, Memory> {
        if name == b"ByConn".as_slice() {
            Ok(Some(kinds(alloc, &[Kind::Int, Kind::Text])?))
        } else {
            Ok(None)
        }
    }

    fn call(
        &self,
        alloc: Global,
        name: &[u8],
        args: &[Value],
        cells: &[Cell],
    ) -> Result<Answer, Memory> {
        match Node::named(name) {
            Some(node) => node.answer(alloc, args, cells),
            None => Ok(Answer {
                result: CallResult::Good(List::new(alloc)),
                puts: List::new(alloc),
                emits: Bytes::new(alloc),
            }),
        }
    }

    fn test(&self, name: &[u8], arg: &Value) -> bool {
        holds(name, arg)
    }

    fn id(&self, _name: &[u8], args: &[Value]) -> u64 {
        first_as_u64(args)
    }

    ghost lawful = { tracker_lawful };
}
