//! Documents by name.

ghost use Rattle.std.specs.Prelude.{◌≡◌, ◌<◌, ◌≤◌, ◌↔◌, All, IsTrue, None, length, IfOk, OnOk, OnErr, option_map};
ghost use Rattle.std.specs.FinMap as map;
ghost use Rattle.std.proofs.Props.{props};
ghost use Rattle.flux_library.specs.Documents.{AreBodies, added};
ghost use Rattle.flux_library.specs.laws.Documents.{by_bytes};

use flux_values::{Bytes, Memory};
use std::alloc::Global;
use std::collections::BTreeMap;
use std::marker::Model;

/// The greatest length of a document's body, in bytes.
pub const BODY_LIMIT: usize = 1_048_576;

/// Documents: a finite map from names to bodies of at most 1,048,576 bytes each.
pub struct Docs {
    alloc: Global,
    /// The names are vectors, since such keys can be searched for a slice.
    bodies: BTreeMap<Vec<u8>, Bytes>,
    ghost each: { AreBodies (map.from_entries (by_bytes bodies.entries)) } by { Prim.hlevel props },
}

impl Drop for Docs {
    fn drop(self) {
        let Docs { alloc, bodies } = self;
    }
}

impl Model for Docs {
    ghost use Rattle.std.specs.FinMap as map;
    ghost use Rattle.flux_library.specs.Documents.{DocMap};
    ghost use Rattle.flux_library.specs.laws.Documents.{by_bytes, doc_code};

    ghost Value = { DocMap };

    ghost coded = { doc_code };

    ghost view = { λ d. record { named = map.from_entries (by_bytes d.bodies.entries); bodies = d.each } };
}

impl Docs {
    /// No documents, which take no memory yet.
    pub fn new(alloc: Global) -> Docs
        ensures { result.named ≡ map.empty }
    {
        Docs {
            alloc,
            bodies: BTreeMap::new(alloc),
        }
    }

    /// Adds a document, and says that it did; where there is one of that name, nothing changes.
    pub fn add(&mut self, name: Bytes, body: Bytes) -> Result<bool, Memory>
        requires { length body ≤ BODY_LIMIT }
        ensures told { IfOk result (λ told. IsTrue told ↔ (map.get self.old.named name ≡ None)) }
        ensures ok { OnOk result (self.new.named ≡ added self.old.named name body) }
        ensures err { OnErr result (self.new ≡ self.old) }
    {
        prove!(is_short(body.as_bytes()));
        if self.bodies.contains_key(name.as_bytes()) {
            return Ok(false);
        }
        let name = Vec::from_slice(self.alloc, name.as_bytes())?;
        self.bodies.insert(name, body)?;
        Ok(true)
    }

    /// The body of the document of a name.
    pub fn get(&self, name: &[u8]) -> Option<&[u8]>
        ensures { option_map (λ body. body.now) result ≡ map.get self.now.named name.now }
    {
        match self.bodies.get(name) {
            Some(body) => Some(body.as_bytes()),
            None => None,
        }
    }
}

/// Whether a body is within its limit.
fn is_short(body: &[u8]) -> bool
    ensures test { IsTrue result ↔ (length body.now ≤ BODY_LIMIT) }
    ensures bytes { All (λ byte. byte < 256) body.now }
{
    body.len() <= BODY_LIMIT
}
