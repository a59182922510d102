//! The least fault of rows: the row with the least number that applies, at its least place.

ghost use Rattle.std.specs.Prelude.{◌≡◌, [], Some};
ghost use Rattle.flux_syntax.specs.Least.{sooner, fault_or, IsLeastFault};

use flux_faults::{CheckFault, FaultKind, StaticFault};
use flux_values::List;
use std::alloc::Global;

/// The lesser of a place so far, if there is one, and another.
pub fn sooner(place: Option<u32>, at: u32) -> u32
    ensures { result ≡ sooner place at }
{
    match place {
        Some(other) => other.min(at),
        None => at,
    }
}

/// The fault of a row at its least place, or where the row doesn't apply another fault.
pub fn fault_or(
    kind: FaultKind,
    place: Option<u32>,
    other: Option<(FaultKind, u32)>,
) -> Option<(FaultKind, u32)>
    ensures { result ≡ fault_or kind place other }
{
    match place {
        Some(at) => Some((kind, at)),
        None => other,
    }
}

/// A fault without a path.
pub fn fault_at(alloc: Global, kind: FaultKind, at: u32) -> CheckFault
    ensures { IsLeastFault (Some (kind, at)) result }
{
    CheckFault::Static(StaticFault {
        kind,
        at,
        path: List::new(alloc),
    })
}
