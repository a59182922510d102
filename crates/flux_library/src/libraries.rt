//! A library as calls.

ghost use Rattle.std.specs.Prelude.{◌≡◌, IfOk};
ghost use Rattle.flux_library.specs.Libraries.{IsCallable};

use flux_values::{Answer, Cell, Kind, List, Meaning, Memory, Sig, Value};
use std::alloc::Global;

/// A library of nodes. Each method gives what the library's meaning says; a name that it doesn't have gives None.
pub trait Library: Meaning + Drop {
    ghost use Rattle.flux_library.specs.Libraries.{IsLawful};

    /// The kind of a type as it is spelled, with its stars.
    fn kind(&self, ty: &[u8]) -> Option<Kind>
        ensures { result ≡ (Self.meaning self.now).kind ty.now };

    fn node(&self, alloc: Global, name: &[u8]) -> Result<Option<Sig>, Memory>
        ensures { IfOk result (λ sig. sig ≡ (Self.meaning self.now).node name.now) };

    /// The kind of a predicate's argument.
    fn predicate(&self, name: &[u8]) -> Option<Kind>
        ensures { result ≡ (Self.meaning self.now).predicate name.now };

    /// The kinds of a session function's arguments.
    fn session(&self, alloc: Global, name: &[u8]) -> Result<Option<List<Kind>>, Memory>
        ensures { IfOk result (λ kinds. kinds ≡ (Self.meaning self.now).session name.now) };

    /// A plain node's answer on values of its kinds and on the cells that it uses, in order.
    fn call(
        &self,
        alloc: Global,
        name: &[u8],
        args: &[Value],
        cells: &[Cell],
    ) -> Result<Answer, Memory>
        requires { IsCallable ((Self.meaning self.now).node name.now) args.now cells.now }
        ensures { IfOk result (λ answer. answer ≡ (Self.meaning self.now).call name.now args.now cells.now) };

    /// Whether a value has a predicate; of no meaning where the library doesn't have it, or for a value of another kind.
    fn test(&self, name: &[u8], arg: &Value) -> bool
        ensures { result ≡ (Self.meaning self.now).test name.now arg.now };

    /// The session of values; of no meaning where the library doesn't have the function, or for values of other kinds.
    fn id(&self, name: &[u8], args: &[Value]) -> u64
        ensures { result ≡ (Self.meaning self.now).id name.now args.now };

    // The library keeps the laws of libraries.
    ghost lawful: { (library : Self) → IsLawful (Self.meaning library) };
}
