//! What constraints ask of declarations: faults 24 and 25.

ghost use Rattle.std.specs.Prelude.{◌≡◌, None, OnOk, IfErr};
ghost use Rattle.flux_syntax.specs.Least.{first_fault, IsLeastFault};
ghost use Rattle.flux_check.specs.Rows.{constraint_rows};

use crate::cells::unprotected;
use crate::scopes::both_scopes;
use flux_faults::{CheckFault, FaultKind};
use flux_library::Library;
use flux_syntax::{Decl, fault_at, fault_or};
use flux_values::List;
use std::alloc::Global;

/// The least of faults 24 and 25: a node that has a name in both scopes, and a node that doesn't protect a cell that its
/// library node uses.
pub fn constraints<L: Library>(
    alloc: Global,
    decls: &List<Decl>,
    library: &L,
) -> Result<(), CheckFault>
    ensures fits { OnOk result
        (first_fault (constraint_rows (L.meaning library.now) decls.now) ≡ None) }
    ensures fault { IfErr result (IsLeastFault
        (first_fault (constraint_rows (L.meaning library.now) decls.now))) }
{
    let scopes = both_scopes(alloc, decls.as_slice())?;
    let cells = unprotected(alloc, library, decls.as_slice())?;
    let fault = fault_or(FaultKind::Unprotected, cells, None);
    match fault_or(FaultKind::BothScopes, scopes, fault) {
        Some((kind, at)) => Err(fault_at(alloc, kind, at)),
        None => Ok(()),
    }
}
