//! What a state is made of.

ghost use Rattle.std.specs.Prelude.{◌≡◌, Some, IsSome, OnOk, OnErr, slice_get};
ghost use Rattle.std.specs.Arc.{arc_value};
ghost use Rattle.flow_model.specs.Carried.{good_values};
ghost use Rattle.flux_plan.specs.Moves.{next_in, IsReached, Advances, IsAnswered};
ghost use Rattle.flow_state.specs.steps.Places.{matches_by, plan_of_item, HasPlan, MayAdvance, MayAnswer};

use flow_model::{Carried, SharedAnswer};
use flux_cells::Cells;
use flux_library::Library;
use flux_model::{FlowNo, Item, Program};
use flux_plan::{Local, Next, VerifiedPlan, advance, has_next, next, take_answer};
use flux_values::{List, Memory};
use std::sync::Arc;

/// What flows run in: a program with a plan for each of its source lines, an item for each flow, the cells at the
/// start, and the library.
pub struct Setup<L: Library> {
    pub program: Arc<Program>,
    pub plans: Arc<List<VerifiedPlan>>,
    pub items: List<Item>,
    pub opening: Cells,
    pub library: Arc<L>,
}

impl<L: Library> Drop for Setup<L> {
    fn drop(self) {
        let Setup {
            program,
            plans,
            items,
            opening,
            library,
        } = self;
    }
}

impl<L: Library> Setup<L> {
    /// The plan that a flow follows.
    #[inline(always)]
    fn plan(&self, flow: FlowNo) -> &VerifiedPlan
        requires { IsSome (plan_of_item (arc_value self.now.plans) (slice_get self.now.items flow.0)) }
        ensures { plan_of_item (arc_value self.now.plans) (slice_get self.now.items flow.0)
            ≡ Some result.now }
    {
        let Some(item) = self.items.get(flow.0 as usize) else {
            unreachable!()
        };
        let Some(plan) = self.plans.get(item.source.0 as usize) else {
            unreachable!()
        };
        plan
    }

    /// What comes next at a flow's place.
    #[inline(always)]
    pub fn next(&self, flow: FlowNo, local: &Local) -> Next
        requires { let matches = matches_by (L.meaning (arc_value self.now.library))
            (arc_value self.now.program) in
            HasPlan (arc_value self.now.plans) self.now.items flow.0
            (λ plan. IsReached plan matches local.now) }
        ensures { let matches = matches_by (L.meaning (arc_value self.now.library))
            (arc_value self.now.program) in
            HasPlan (arc_value self.now.plans) self.now.items flow.0
            (λ plan. next_in plan matches local.now ≡ Some result) }
    {
        next(&self.program, self.plan(flow), local, &*self.library)
    }

    /// Does nothing. Its clause: something comes next at the flow's place.
    pub fn has_next(&self, flow: FlowNo, local: &Local)
        requires { let matches = matches_by (L.meaning (arc_value self.now.library))
            (arc_value self.now.program) in
            HasPlan (arc_value self.now.plans) self.now.items flow.0
            (λ plan. IsReached plan matches local.now) }
        ensures { let matches = matches_by (L.meaning (arc_value self.now.library))
            (arc_value self.now.program) in
            HasPlan (arc_value self.now.plans) self.now.items flow.0
            (λ plan. IsSome (next_in plan matches local.now)) }
    {
        let _ = local;
        has_next(self.plan(flow));
    }

    /// Makes the event that comes next at a flow's place.
    #[inline(always)]
    pub fn advance(&self, flow: FlowNo, local: &mut Local) -> Result<(), Memory>
        requires { let matches = matches_by (L.meaning (arc_value self.now.library))
            (arc_value self.now.program) in
            HasPlan (arc_value self.now.plans) self.now.items flow.0
            (λ plan. MayAdvance plan matches local.old) }
        ensures ok { let matches = matches_by (L.meaning (arc_value self.now.library))
            (arc_value self.now.program) in
            OnOk result (HasPlan (arc_value self.now.plans) self.now.items flow.0
            (λ plan. Advances plan matches local.old local.new)) }
        ensures err { OnErr result (local.new ≡ local.old) }
    {
        advance(&self.program, self.plan(flow), local, &*self.library)
    }

    /// Takes the answer of the call that comes next at a flow's place, with its values.
    pub fn take_answer(
        &self,
        flow: FlowNo,
        local: &mut Local,
        answer: &SharedAnswer,
        values: Carried,
    )
        requires values { values ≡ good_values answer.now.result }
        requires may { HasPlan (arc_value self.now.plans) self.now.items flow.0
            (λ plan. MayAnswer plan local.old) }
        ensures { HasPlan (arc_value self.now.plans) self.now.items flow.0
            (λ plan. IsAnswered plan local.old answer.now local.new) }
    {
        take_answer(self.plan(flow), local, answer, values)
    }
}
