//! The first faulty place of a plan.

ghost use Rattle.std.specs.Prelude.{◌≡◌, ◌<◌, ◌^◌, [], ◌∷◌, length, Some, IfOk, IsSome};
ghost use Rattle.std.specs.List.{slice_get};
ghost use Rattle.flux_plan.specs.Faulty.{IsSized, IsFaultIn};
ghost use Rattle.flux_verify.specs.steps.Checks.{AreOffCycles, IsFirstPlace, IsFirstOf};
ghost use Rattle.flux_verify.specs.steps.Orders.{AreClosed};
ghost use Rattle.flux_verify.specs.steps.Visits.{IsReach};

use crate::checks::faulty_place;
use crate::orders::{Known, survey};
use crate::reaching::reach;
use flux_model::{NodeNo, Visits};
use flux_plan::{Plan, Segment};
use flux_values::Memory;
use std::alloc::Global;

/// A place in the segment of a node.
#[derive(Clone, Copy)]
pub struct SegmentPlace {
    pub node: NodeNo,
    pub at: u32,
}

/// The first faulty place in the segment of a node, if the target reaches that node.
fn fault_in(
    alloc: Global,
    plan: &Plan,
    reached: &Visits,
    known: &Known,
    node: u32,
    segment: &Segment,
) -> Result<Option<u32>, Memory>
    requires reached { IsReach plan.now.segments (plan.now.target ∷ []) reached.now }
    requires straight { AreOffCycles plan.now.segments known.now.straight }
    requires closed { AreClosed plan.now.segments known.now.closed }
    requires stands { slice_get plan.now.segments node ≡ Some segment.now }
    requires few { length segment.now.code < 2 ^ 32 }
    ensures { IfOk result (IsFirstPlace (λ place. IsFaultIn plan.now node place (Some segment.now))) }
{
    if !reached.has(node) {
        return Ok(None);
    }
    faulty_place(alloc, &plan.segments, known, node, segment)
}

/// The lowest node that has a faulty place, with its first one, where the target has a segment.
fn first_in_segments(
    alloc: Global,
    plan: &Plan,
    reached: &Visits,
    known: &Known,
) -> Result<Option<SegmentPlace>, Memory>
    requires sized { IsSized plan.now }
    requires target { IsSome (slice_get plan.now.segments plan.now.target.0) }
    requires reached { IsReach plan.now.segments (plan.now.target ∷ []) reached.now }
    requires straight { AreOffCycles plan.now.segments known.now.straight }
    requires closed { AreClosed plan.now.segments known.now.closed }
    ensures { IfOk result (IsFirstOf plan.now) }
{
    let mut node = 0;
    for segment in plan.segments.as_slice() {
        if let Some(at) = fault_in(alloc, plan, reached, known, node, segment)? {
            return Ok(Some(SegmentPlace {
                node: NodeNo(node),
                at,
            }));
        }
        node += 1;
    }
    Ok(None)
}

/// The lowest node that has a faulty place, with its first one.
pub fn first_fault(alloc: Global, plan: &Plan) -> Result<Option<SegmentPlace>, Memory>
    requires { IsSized plan.now }
    ensures { IfOk result (IsFirstOf plan.now) }
{
    if plan.segments.get(plan.target).is_none() {
        return Ok(Some(SegmentPlace {
            node: plan.target,
            at: 0,
        }));
    }
    let reached = reach(alloc, &plan.segments, &[plan.target])?;
    let known = survey(alloc, &plan.segments, plan.target)?;
    first_in_segments(alloc, plan, &reached, &known)
}
