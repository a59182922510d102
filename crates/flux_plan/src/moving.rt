//! What a flow does next, and its place afterwards.

ghost use Rattle.std.specs.Prelude.{◌≡◌, Some, IsSome, OnOk, OnErr};
ghost use Rattle.flow_model.specs.Carried.{good_values};
ghost use Rattle.flow_model.specs.Matching.{patterns_match};
ghost use Rattle.flux_plan.specs.Machine.{Matches, Position};
ghost use Rattle.flux_plan.specs.Moves.{next_in, IsEvent, called_in, IsReached, IsReachedBySome, Advances, IsAnswered};

use crate::locals::{Local, Next};
use crate::machines::Machine;
use crate::verified::VerifiedPlan;
use flow_model::{Carried, SharedAnswer};
use flux_library::Library;
use flux_model::Program;
use flux_values::Memory;

/// What a flow does next. A pattern's number points into the program's predicates; one that points at nothing there, or
/// at a name that the library doesn't have, matches nothing.
#[inline(always)]
pub fn next<L: Library>(p: &Program, plan: &VerifiedPlan, local: &Local, library: &L) -> Next
    requires reached { let matches = patterns_match (L.meaning library.now) p.now.predicates in
        IsReached plan.now matches local.now }
    ensures { let matches = patterns_match (L.meaning library.now) p.now.predicates in
        next_in plan.now matches local.now ≡ Some result }
{
    local.next(&Machine {
        plan: plan.as_plan(),
        program: p,
        library,
    })
}

/// Does nothing. Its clause: something comes next at each place that a run reaches.
pub fn has_next(plan: &VerifiedPlan)
    ensures { (matches : Matches) (position : Position) → IsReached plan.now matches position
        → IsSome (next_in plan.now matches position) }
{
    let _ = plan.as_plan();
}

/// Makes the event that comes next, which is no call. It takes memory for the frame of a node that is entered.
#[inline(always)]
pub fn advance<L: Library>(
    p: &Program,
    plan: &VerifiedPlan,
    local: &mut Local,
    library: &L,
) -> Result<(), Memory>
    requires reached { let matches = patterns_match (L.meaning library.now) p.now.predicates in
        IsReached plan.now matches local.old }
    requires event { let matches = patterns_match (L.meaning library.now) p.now.predicates in
        IsEvent (next_in plan.now matches local.old) }
    ensures ok { let matches = patterns_match (L.meaning library.now) p.now.predicates in
        OnOk result (Advances plan.now matches local.old local.new) }
    ensures err { OnErr result (local.new ≡ local.old) }
{
    local.advance(&Machine {
        plan: plan.as_plan(),
        program: p,
        library,
    })
}

/// Takes the answer of the call that comes next. Good values aren't copied: those of the answer are at hand then.
pub fn answered(plan: &VerifiedPlan, local: &mut Local, answer: &SharedAnswer) -> Result<(), Memory>
    requires reached { IsReachedBySome plan.now local.old }
    requires call { IsSome (called_in plan.now local.old) }
    ensures ok { OnOk result (IsAnswered plan.now local.old answer.now local.new) }
    ensures err { OnErr result (local.new ≡ local.old) }
{
    let values = local.carried(answer)?;
    take_answer(plan, local, answer, values);
    Ok(())
}

/// The same, where its values are at hand already.
pub fn take_answer(plan: &VerifiedPlan, local: &mut Local, answer: &SharedAnswer, values: Carried)
    requires reached { IsReachedBySome plan.now local.old }
    requires call { IsSome (called_in plan.now local.old) }
    requires values { values ≡ good_values answer.now.result }
    ensures { IsAnswered plan.now local.old answer.now local.new }
{
    local.answer(plan.as_plan(), answer, values)
}
