//! Plans are looked through.

ghost use Rattle.std.specs.Prelude.{◌≡◌, IfOk, IfErr};
ghost use Rattle.flux_plan.specs.Faulty.{IsVerified, IsSized};
ghost use Rattle.flux_verify.specs.Faults.{IsFaultOf};

use crate::verifying::first_fault;
use flux_model::NodeNo;
use flux_plan::{Plan, VerifiedPlan};
use flux_values::Memory;
use std::alloc::Global;

/// Why a plan isn't a verified one.
#[derive(Clone, Copy, PartialEq, Eq)]
pub enum VerifyFault {
    /// The lowest node that has a faulty place, and its first one.
    Bad { node: NodeNo, at: u32 },
    Memory,
}

/// Looks through the nodes that the plan's target reaches, for a faulty place.
pub fn verify(alloc: Global, plan: Plan) -> Result<VerifiedPlan, VerifyFault>
    requires sized { IsSized plan }
    ensures same { IfOk result (λ verified. verified ≡ plan) }
    ensures verified { IfOk result (λ _. IsVerified plan) }
    ensures fault { IfErr result (IsFaultOf plan) }
{
    match first_fault(alloc, &plan) {
        Ok(None) => Ok(VerifiedPlan::new(plan)),
        Ok(Some(found)) => Err(VerifyFault::Bad {
            node: found.node,
            at: found.at,
        }),
        Err(Memory) => Err(VerifyFault::Memory),
    }
}
