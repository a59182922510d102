//! What a library needs so that another can come after it.

ghost use Rattle.std.specs.Prelude.{◌≡◌, is_some, IfOk, IfSome};

use flux_library::Library;
use flux_values::{Answer, Cell, Memory, Value};
use std::alloc::Global;

/// A library that another can come after: one question each is enough to know whether it has a name and what it answers.
pub trait Joinable: Library {
    ghost use Rattle.flux_library.specs.Libraries.{Fits};
    ghost use Rattle.nodes_joined.specs.Joined.{answer_if_had};

    /// What `call` answers; None where the library doesn't have the node.
    fn call_if_had(
        &self,
        alloc: Global,
        name: &[u8],
        args: &[Value],
        cells: &[Cell],
    ) -> Result<Option<Answer>, Memory>
        requires { IfSome ((Self.meaning self.now).node name.now) (λ sig. Fits sig args.now cells.now) }
        ensures { IfOk result (λ answer. answer
            ≡ answer_if_had (Self.meaning self.now) name.now args.now cells.now) };

    /// Whether the library has a session function.
    fn has_session(&self, name: &[u8]) -> bool
        ensures { result ≡ is_some ((Self.meaning self.now).session name.now) };
}
