//! The least place of a row.

ghost use Rattle.std.specs.Prelude.{◌≡◌, None, OnOk, IfErr};
ghost use Rattle.flux_syntax.specs.Least.{fault_or, IsLeastFault};
ghost use Rattle.flux_edges.specs.Places.{sooner_of};

use flux_faults::{CheckFault, FaultKind};
use flux_syntax::{fault_at, sooner};
use std::alloc::Global;

/// The least place so far, from 0; None where there is none.
pub type Place = Option<u32>;

/// The least place so far, or this one, where something doesn't hold.
pub fn unless(holds: bool, at: u32, place: Place) -> Place
    ensures { result ≡ sooner_of holds at place }
{
    if holds {
        place
    } else {
        Some(sooner(place, at))
    }
}

/// The fault of a row with this least place, if it applies.
pub fn fault(alloc: Global, kind: FaultKind, place: Place) -> Result<(), CheckFault>
    ensures fits { OnOk result (place ≡ None) }
    ensures fault { IfErr result (IsLeastFault (fault_or kind place None)) }
{
    match place {
        Some(at) => Err(fault_at(alloc, kind, at)),
        None => Ok(()),
    }
}
