//! What is asked of flows: who has ended, who is at a call, who is blocked and by whom, and who waits where.

ghost use Rattle.std.specs.Prelude.{◌≡◌, ◌<◌, ◌↔◌, length, IsTrue, MatchBool, MatchOption};
ghost use Rattle.flow_model.specs.declared.journals.Event.TheVariants as events;
ghost use Rattle.flow_model.specs.Events.{IsNext};
ghost use Rattle.flow_model.specs.Waits.{Blocks, IsNoWaitLast};
ghost use Rattle.flux_plan.specs.declared.locals.Next.TheVariants as nexts;
ghost use Rattle.flux_laws.specs.Going.{IsBlocked, IsAtCall};
ghost use Rattle.flux_laws.specs.Growth.{has_ended};
ghost use Rattle.flux_table.specs.Blockers.{IsLowestOf};
ghost use Rattle.flow_state.specs.States.{setup_at};
ghost use Rattle.flow_state.specs.Blockers.{IsHeldBy, IsAhead, IsBlockedAt};
ghost use Rattle.flow_state.specs.Lines.{IsBlockedTake, IsReadiness, IsStanding, IsLineAt};
ghost use Rattle.flow_state.specs.steps.Places.{IsComing};
ghost use Rattle.flow_state.specs.steps.Fields.{state_of, plans_of, AreFields};

use crate::fields::Fields;
use crate::readiness::{BlockedTake, Readiness};
use flow_model::Key;
use flux_library::Library;
use flux_model::{ClassNo, FlowNo, Mode};
use flux_plan::Next;
use flux_table::Waiter;

impl<L: Library> Fields<L> {
    pub fn is_ended(&self, flow: FlowNo) -> bool
        requires fields { AreFields L.meaning self.now }
        requires flow { flow.0 < length self.now.setup.items }
        ensures { result ≡ has_ended self.now.made flow.0 }
    {
        matches!(self.next(flow), Next::Ended)
    }

    pub fn at_call(&self, flow: FlowNo) -> bool
        requires fields { AreFields L.meaning self.now }
        requires flow { flow.0 < length self.now.setup.items }
        ensures { IsTrue result ↔ IsAtCall (setup_at L.meaning (state_of self.now)) self.now.made flow.0 }
    {
        matches!(self.next(flow), Next::Call(_))
    }

    /// The key of the take at which a flow is blocked.
    pub fn waits_at(&self, flow: FlowNo) -> Option<Key>
        requires fields { AreFields L.meaning self.now }
        requires flow { flow.0 < length self.now.setup.items }
        ensures { let setup = setup_at L.meaning (state_of self.now) in
            MatchOption result (IsBlocked setup self.now.made flow.0 → ⊥)
            (IsBlockedAt setup self.now.made flow.0) }
    {
        Some(self.blocked_take(flow)?.key)
    }

    /// Where a flow is blocked.
    pub fn blocked_take(&self, flow: FlowNo) -> Option<BlockedTake>
        requires fields { AreFields L.meaning self.now }
        requires flow { flow.0 < length self.now.setup.items }
        ensures { let setup = setup_at L.meaning (state_of self.now) in
            MatchOption result (IsBlocked setup self.now.made flow.0 → ⊥)
            (IsBlockedTake setup self.now.made flow.0) }
    {
        match self.readiness(flow) {
            Readiness::Blocked(stop) => Some(stop),
            Readiness::Ended => None,
            Readiness::Free => None,
        }
    }

    /// Whether a flow can go on.
    pub fn readiness(&self, flow: FlowNo) -> Readiness
        requires fields { AreFields L.meaning self.now }
        requires flow { flow.0 < length self.now.setup.items }
        ensures { IsReadiness (setup_at L.meaning (state_of self.now)) self.now.made flow.0 result }
    {
        match self.next(flow) {
            Next::Ended => Readiness::Ended,
            Next::Take(class, mode) => self.readiness_to(flow, class, mode),
            _ => Readiness::Free,
        }
    }

    /// The same of a flow whose take of a class comes next.
    fn readiness_to(&self, flow: FlowNo, class: ClassNo, mode: Mode) -> Readiness
        requires fields { AreFields L.meaning self.now }
        requires flow { flow.0 < length self.now.setup.items }
        requires coming { IsComing (setup_at L.meaning (state_of self.now)) (plans_of self.now)
            self.now.places.items flow.0 (nexts.Take class mode) }
        ensures { IsReadiness (setup_at L.meaning (state_of self.now)) self.now.made flow.0 result }
    {
        let key = self.key(flow, class);
        match self.table.holder(flow, key, mode) {
            Some(_) => {
                let place = &self.places[flow.0 as usize];
                Readiness::Blocked(BlockedTake {
                    key,
                    mode,
                    stands: place.stands,
                })
            }
            None => Readiness::Free,
        }
    }

    /// Whether a flow is in a line.
    pub fn stands(&self, flow: FlowNo) -> bool
        requires fields { AreFields L.meaning self.now }
        requires flow { flow.0 < length self.now.setup.items }
        ensures { MatchBool result (IsStanding self.now.made flow.0) (IsNoWaitLast self.now.made flow) }
    {
        self.places[flow.0 as usize].stands
    }

    /// The flows that wait at a key, first come first.
    pub fn line(&self, key: Key) -> &[Waiter]
        requires { AreFields L.meaning self.now }
        ensures { IsLineAt self.now.made key result.now }
    {
        self.table.line(key)
    }
}

impl<L: Library> Fields<L> {
    /// The lowest flow that holds the key of a flow's next take in conflict.
    pub fn holder(&self, flow: FlowNo, key: Key, mode: Mode) -> Option<FlowNo>
        requires fields { AreFields L.meaning self.now }
        requires next { IsNext (setup_at L.meaning (state_of self.now)) self.now.made flow.0
            (events.Take key mode) }
        ensures { IsLowestOf (λ other. IsHeldBy self.now.made other flow.0 key mode) result }
    {
        self.table.held_against(flow, key, mode)
    }

    /// The lowest flow that waits at the key of a flow's next take in conflict, ahead of the flow.
    pub fn ahead(&self, flow: FlowNo, key: Key, mode: Mode) -> Option<FlowNo>
        requires fields { AreFields L.meaning self.now }
        requires next { IsNext (setup_at L.meaning (state_of self.now)) self.now.made flow.0
            (events.Take key mode) }
        ensures { IsLowestOf (λ other. IsAhead self.now.made other flow.0 key mode) result }
    {
        self.table.ahead(flow, key, mode)
    }

    /// The lowest flow that blocks a flow's next take.
    pub fn blocker(&self, flow: FlowNo, key: Key, mode: Mode) -> Option<FlowNo>
        requires fields { AreFields L.meaning self.now }
        requires next { IsNext (setup_at L.meaning (state_of self.now)) self.now.made flow.0
            (events.Take key mode) }
        ensures { IsLowestOf (λ other. Blocks self.now.made other flow.0 key mode) result }
    {
        self.table.holder(flow, key, mode)
    }
}
