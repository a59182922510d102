//! The library itself.

use crate::nodes::Node;
use flux_library::Library;
use flux_library::sessions::first_as_u64;
use flux_library::signatures::kinds;
use flux_library::types::kind_spelled;
use flux_values::{Answer, Bytes, CallResult, Cell, Kind, List, Meaning, Memory, Sig, Value};
use std::alloc::Global;

/// The basic nodes, `Pass`, `Fail`, `Show`, `Echo` and `Refuse`, and the counter's, `Command`,
/// `Amount`, `Add`, `Read` and `Bump`, with the sources `Tick` and `Listen`.
#[derive(Clone, Copy, Drop)]
pub struct Counter;

impl Meaning for Counter {
    ghost use Rattle.nodes_counter.specs.Counters.{counter_meaning};

    ghost meaning = { λ _. counter_meaning };
}

impl Library for Counter {
    ghost use Rattle.nodes_counter.specs.laws.Counters.{counter_lawful};

    fn kind(&self, ty: &[u8]) -> Option<Kind> {
        kind_spelled(ty)
    }

    fn node(&self, alloc: Global, name: &[u8]) -> Result<Option<Sig>, Memory> {
        match Node::named(name) {
            Some(node) => Ok(Some(node.sig(alloc)?)),
            None => Ok(None),
        }
    }

    fn predicate(&self, name: &[u8]) -> Option<Kind> {
        if name == b"IsZero".as_slice() || name == b"IsNegative".as_slice() {
            Some(Kind::Int)
        } else if name == b"IsAdd".as_slice() {
            Some(Kind::Text)
        } else {
            None
        }
    }

    fn session(&self, alloc: Global, name: &[u8]) -> Result<Option<List<Kind>>, Memory> {
        if name == b"ByConn".as_slice() {
            Ok(Some(kinds(alloc, &[Kind::Int, Kind::Text])?))
        } else if name == b"ByNumber".as_slice() {
            Ok(Some(kinds(alloc, &[Kind::Int])?))
        } else {
            Ok(None)
        }
    }

    fn call(
        &self,
        alloc: Global,
        name: &[u8],
        args: &[Value],
        cells: &[Cell],
    ) -> Result<Answer, Memory> {
        match Node::named(name) {
            Some(node) => node.answer(alloc, args, cells),
            None => Ok(Answer {
                result: CallResult::Good(List::new(alloc)),
                puts: List::new(alloc),
                emits: Bytes::new(alloc),
            }),
        }
    }

    fn test(&self, name: &[u8], arg: &Value) -> bool {
        match arg {
            Value::Int(number) if name == b"IsZero".as_slice() => *number == 0,
            Value::Int(number) if name == b"IsNegative".as_slice() => *number < 0,
            Value::Text(text) if name == b"IsAdd".as_slice() => text.as_bytes()
                == b"add".as_slice(),
            _ => false,
        }
    }

    fn id(&self, _name: &[u8], args: &[Value]) -> u64 {
        first_as_u64(args)
    }

    ghost lawful = { counter_lawful };
}
