//! The library itself.
#![tactic(auto, unfolding(crate::specs::Alls::all_meaning, nodes_joined::specs::Joined::joined))]

ghost use Rattle.std.specs.Prelude.{◌≡◌, IfOk};
ghost use Rattle.nodes_joined.specs.Joined.{answer_if_had};
ghost use Rattle.nodes_all.specs.Alls.{all_meaning};

use flux_library::answers::good;
use flux_library::sessions::first_as_u64;
use flux_library::types::kind_spelled;
use flux_library::{Docs, Library};
use flux_values::{Answer, Cell, Kind, List, Meaning, Memory, Sig, Value};
use nodes_counter::Counter;
use nodes_joined::Joinable;
use std::alloc::Global;

/// The nodes of `Counter`, `Web`, `Caching` and `Tracker`, those of `Web` and `Caching` over the same documents.
pub struct All {
    pub docs: Docs,
}

impl Drop for All {
    fn drop(self) {
        let All { docs } = self;
    }
}

impl All {
    /// What a node answers; None where no library has it.
    fn answer_of(
        &self,
        alloc: Global,
        name: &[u8],
        args: &[Value],
        cells: &[Cell],
    ) -> Result<Option<Answer>, Memory>
        ensures { IfOk result (λ answer. answer
            ≡ answer_if_had (all_meaning self.now.docs) name.now args.now cells.now) }
    {
        if let Some(node) = nodes_counter::Node::named(name) {
            Ok(Some(node.answer(alloc, args, cells)?))
        } else if let Some(node) = nodes_web::Node::named(name) {
            Ok(Some(node.answer(alloc, &self.docs, args)?))
        } else if let Some(node) = nodes_cache::Node::named(name) {
            Ok(Some(node.answer(alloc, &self.docs, args, cells)?))
        } else if let Some(node) = nodes_tracker::Node::named(name) {
            Ok(Some(node.answer(alloc, args, cells)?))
        } else {
            Ok(None)
        }
    }
}

impl Meaning for All {
    ghost meaning = { λ library. all_meaning library.docs };
}

impl Library for All {
    ghost use Rattle.nodes_all.specs.laws.Alls.{all_lawful};

    fn kind(&self, ty: &[u8]) -> Option<Kind> {
        kind_spelled(ty)
    }

    fn node(&self, alloc: Global, name: &[u8]) -> Result<Option<Sig>, Memory> {
        if let Some(node) = nodes_counter::Node::named(name) {
            Ok(Some(node.sig(alloc)?))
        } else if let Some(node) = nodes_web::Node::named(name) {
            Ok(Some(node.sig(alloc)?))
        } else if let Some(node) = nodes_cache::Node::named(name) {
            Ok(Some(node.sig(alloc)?))
        } else if let Some(node) = nodes_tracker::Node::named(name) {
            Ok(Some(node.sig(alloc)?))
        } else {
            Ok(None)
        }
    }

    fn predicate(&self, name: &[u8]) -> Option<Kind> {
        let last = nodes_cache::asked(name).or(nodes_tracker::asked(name));
        let others = nodes_web::asked(name).or(last);
        Counter.predicate(name).or(others)
    }

    fn session(&self, alloc: Global, name: &[u8]) -> Result<Option<List<Kind>>, Memory> {
        // (all that the others have, `Counter` has too)
        Counter.session(alloc, name)
    }

    fn call(
        &self,
        alloc: Global,
        name: &[u8],
        args: &[Value],
        cells: &[Cell],
    ) -> Result<Answer, Memory> {
        match self.answer_of(alloc, name, args, cells)? {
            Some(answer) => Ok(answer),
            None => good(alloc, List::new(alloc)),
        }
    }

    fn test(&self, name: &[u8], arg: &Value) -> bool {
        match (
            Counter.predicate(name),
            nodes_web::asked(name),
            nodes_cache::asked(name),
        ) {
            (Some(_), _, _) => Counter.test(name, arg),
            (None, Some(_), _) => nodes_web::holds(name, arg),
            (None, None, Some(_)) => nodes_cache::holds(name, arg),
            (None, None, None) => nodes_tracker::holds(name, arg),
        }
    }

    fn id(&self, _name: &[u8], args: &[Value]) -> u64 {
        first_as_u64(args)
    }

    ghost lawful = { λ library. all_lawful library.docs };
}

impl Joinable for All {
    fn call_if_had(
        &self,
        alloc: Global,
        name: &[u8],
        args: &[Value],
        cells: &[Cell],
    ) -> Result<Option<Answer>, Memory> {
        self.answer_of(alloc, name, args, cells)
    }

    fn has_session(&self, name: &[u8]) -> bool {
        name == b"ByConn".as_slice() || name == b"ByNumber".as_slice()
    }
}
