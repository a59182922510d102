//! The library that is joined of two.

use crate::joinable::Joinable;
use flux_library::Library;
use flux_values::{Answer, Cell, Kind, List, Meaning, Memory, Sig, Value};
use std::alloc::Global;

/// Two libraries as one: a name means what it means in the first, where that has it, and else in the second.
#[derive(Drop)]
pub struct Joined<A, B> {
    pub first: A,
    pub second: B,
}

impl<A: Meaning, B: Meaning> Meaning for Joined<A, B> {
    ghost use Rattle.nodes_joined.specs.Joined.{joined};

    ghost meaning = { λ library. joined (A.meaning library.first) (B.meaning library.second) };
}

impl<A: Joinable, B: Library> Library for Joined<A, B> {
    ghost use Rattle.nodes_joined.specs.laws.Joined.{joined_lawful};

    fn kind(&self, ty: &[u8]) -> Option<Kind> {
        self.first.kind(ty).or(self.second.kind(ty))
    }

    fn node(&self, alloc: Global, name: &[u8]) -> Result<Option<Sig>, Memory> {
        match self.first.node(alloc, name)? {
            Some(sig) => Ok(Some(sig)),
            None => self.second.node(alloc, name),
        }
    }

    fn predicate(&self, name: &[u8]) -> Option<Kind> {
        self.first.predicate(name).or(self.second.predicate(name))
    }

    fn session(&self, alloc: Global, name: &[u8]) -> Result<Option<List<Kind>>, Memory> {
        match self.first.session(alloc, name)? {
            Some(kinds) => Ok(Some(kinds)),
            None => self.second.session(alloc, name),
        }
    }

    fn call(
        &self,
        alloc: Global,
        name: &[u8],
        args: &[Value],
        cells: &[Cell],
    ) -> Result<Answer, Memory> {
        match self.first.call_if_had(alloc, name, args, cells)? {
            Some(answer) => Ok(answer),
            None => self.second.call(alloc, name, args, cells),
        }
    }

    fn test(&self, name: &[u8], arg: &Value) -> bool {
        match self.first.predicate(name) {
            Some(_) => self.first.test(name, arg),
            None => self.second.test(name, arg),
        }
    }

    fn id(&self, name: &[u8], args: &[Value]) -> u64 {
        if self.first.has_session(name) {
            self.first.id(name, args)
        } else {
            self.second.id(name, args)
        }
    }

    ghost lawful = { λ library. joined_lawful (A.meaning library.first) (B.meaning library.second)
        (A.lawful library.first) (B.lawful library.second) };
}

impl<A: Joinable, B: Joinable> Joinable for Joined<A, B> {
    fn call_if_had(
        &self,
        alloc: Global,
        name: &[u8],
        args: &[Value],
        cells: &[Cell],
    ) -> Result<Option<Answer>, Memory> {
        match self.first.call_if_had(alloc, name, args, cells)? {
            Some(answer) => Ok(Some(answer)),
            None => self.second.call_if_had(alloc, name, args, cells),
        }
    }

    fn has_session(&self, name: &[u8]) -> bool {
        self.first.has_session(name) || self.second.has_session(name)
    }
}
