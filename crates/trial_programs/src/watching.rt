//! A library of whose calls someone is notified.

use flux_library::Library;
use flux_values::{Answer, Cell, Kind, List, Meaning, Memory, Sig, Value};
use nodes_counter::Counter;
use std::alloc::Global;

/// Who is notified of each call before it is made.
pub trait Watcher: Drop {
    /// Whether the call is refused, as if memory were short.
    fn refuses(&self) -> bool;
}

/// The library `Counter`, of whose calls a watcher is notified.
#[derive(Drop)]
pub struct Watched<W: Watcher> {
    pub watcher: W,
}

impl<W: Watcher> Meaning for Watched<W> {
    ghost use Rattle.nodes_counter.specs.Counters.{counter_meaning};

    ghost meaning = { λ _. counter_meaning };
}

impl<W: Watcher> Library for Watched<W> {
    ghost use Rattle.nodes_counter.specs.laws.Counters.{counter_lawful};

    fn kind(&self, ty: &[u8]) -> Option<Kind> {
        Counter.kind(ty)
    }

    fn node(&self, alloc: Global, name: &[u8]) -> Result<Option<Sig>, Memory> {
        Counter.node(alloc, name)
    }

    fn predicate(&self, name: &[u8]) -> Option<Kind> {
        Counter.predicate(name)
    }

    fn session(&self, alloc: Global, name: &[u8]) -> Result<Option<List<Kind>>, Memory> {
        Counter.session(alloc, name)
    }

    fn call(
        &self,
        alloc: Global,
        name: &[u8],
        args: &[Value],
        cells: &[Cell],
    ) -> Result<Answer, Memory> {
        if self.watcher.refuses() {
            return Err(Memory);
        }
        Counter.call(alloc, name, args, cells)
    }

    fn test(&self, name: &[u8], arg: &Value) -> bool {
        Counter.test(name, arg)
    }

    fn id(&self, name: &[u8], args: &[Value]) -> u64 {
        Counter.id(name, args)
    }

    ghost lawful = { counter_lawful };
}
