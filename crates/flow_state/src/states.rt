//! The state, and its calls.

ghost use Rattle.std.specs.Prelude.{◌≡◌, ◌<◌, ◌↔◌, [], length, IsTrue, MatchBool, IfOk, OnOk, OnErr, MatchOption};
ghost use Rattle.std.specs.Arc.{arc_value};
ghost use Rattle.flow_model.specs.declared.journals.Event.TheVariants as events;
ghost use Rattle.flow_model.specs.CellsAfter.{cells_after};
ghost use Rattle.flow_model.specs.Events.{IsNext};
ghost use Rattle.flow_model.specs.Waits.{Blocks, IsNoWaitLast};
ghost use Rattle.flux_laws.specs.Going.{IsBlocked, IsAtCall};
ghost use Rattle.flux_laws.specs.Growth.{has_ended};
ghost use Rattle.flux_laws.specs.Moves.{MayStand, MayCall};
ghost use Rattle.flux_table.specs.Blockers.{IsLowestOf};
ghost use Rattle.flux_cells.specs.Kept.{cells_of};
ghost use Rattle.flow_state.specs.States.{setup_of, setup_at, live_at, MayRun, IsLegalState};
ghost use Rattle.flow_state.specs.Calls.{IsReady, IsNextCall};
ghost use Rattle.flow_state.specs.declared.coming.Coming.TheVariants as comings;
ghost use Rattle.flow_state.specs.Coming.{IsComing, Comes};
ghost use Rattle.flow_state.specs.Blockers.{IsHeldBy, IsAhead, IsBlockedAt};
ghost use Rattle.flow_state.specs.Lines.{IsBlockedTake, IsReadiness, IsStanding, IsLineAt};
ghost use Rattle.flow_state.specs.Moves.{MayMake, Makes, AddsWait, AddsCall};

use crate::coming::Coming;
use crate::fields::Fields;
use crate::inputs::Inputs;
use crate::readiness::{BlockedTake, Readiness};
use crate::setups::Setup;
use flow_model::{CallMade, Key};
use flux_cells::Cells;
use flux_library::Library;
use flux_model::{FlowNo, Mode, NodeNo};
use flux_table::Waiter;
use flux_values::Memory;
use std::alloc::Global;
use std::marker::Model;

/// Flows over a setup, where the entries that they made have led them. What it keeps at every moment is reported by
/// `keep`.
pub struct State<L: Library> {
    fields: Fields<L>,
}

impl<L: Library> Drop for State<L> {
    fn drop(self) {
        let State { fields } = self;
    }
}

impl<L: Library> Model for State<L> {
    ghost use Rattle.flow_state.specs.States.{FlowState, state_code};

    ghost Value = { FlowState L };

    ghost coded = { state_code L.code };

    ghost use Rattle.flow_state.specs.steps.Fields.{state_of, AreFields};

    ghost view = { λ s. state_of s.fields };

    ghost invariant = { λ s. AreFields L.meaning s.fields };
}

impl<L: Library> State<L> {
    /// Flows that have made nothing.
    pub fn new(alloc: Global, setup: Setup<L>) -> Result<State<L>, Memory>
        requires { MayRun (L.meaning (arc_value setup.library)) (arc_value setup.program)
            (arc_value setup.plans) setup.items }
        ensures { IfOk result (λ state. state ≡ record { setup = setup_of setup; entries = [] }) }
    {
        Ok(State {
            fields: Fields::new(alloc, setup)?,
        })
    }

    /// What a state keeps at every moment.
    pub fn keep(&self)
        ensures { IsLegalState L.meaning self.now }
    {
        let _ = &self.fields;
    }

    /// What it was made of.
    pub fn setup(&self) -> &Setup<L>
        ensures { setup_of result.now ≡ self.now.setup }
    {
        &self.fields.setup
    }

    /// The allocator that it was made with.
    pub fn alloc(&self) -> Global {
        self.fields.alloc
    }

    /// The number of flows.
    pub fn flows(&self) -> u32
        ensures { result ≡ length self.now.setup.items }
    {
        self.fields.setup.items.len() as u32
    }

    /// The number of flows without `end`.
    pub fn live(&self) -> u32
        ensures { result ≡ live_at self.now }
    {
        self.fields.live
    }

    pub fn cells(&self) -> &Cells
        ensures { cells_of result.now ≡ cells_after (setup_at L.meaning self.now) self.now.entries }
    {
        &self.fields.cells
    }

    pub fn into_parts(self) -> (Setup<L>, Cells)
        ensures setup { setup_of result.0 ≡ self.setup }
        ensures cells { cells_of result.1 ≡ cells_after (setup_at L.meaning self) self.entries }
        ensures kept { IsLegalState L.meaning self }
    {
        let State { fields } = self;
        let Fields { setup, cells, .. } = fields;
        (setup, cells)
    }
}

impl<L: Library> State<L> {
    /// What comes next for a flow.
    #[inline(always)]
    pub fn next(&self, flow: FlowNo) -> Coming
        requires { flow.0 < length self.now.setup.items }
        ensures { Comes (setup_at L.meaning self.now) self.now.entries flow.0 result }
    {
        self.fields.coming(flow)
    }

    pub fn is_ended(&self, flow: FlowNo) -> bool
        requires { flow.0 < length self.now.setup.items }
        ensures { result ≡ has_ended self.now.entries flow.0 }
    {
        self.fields.is_ended(flow)
    }

    /// Whether a flow's next event is a call.
    pub fn at_call(&self, flow: FlowNo) -> bool
        requires { flow.0 < length self.now.setup.items }
        ensures { IsTrue result ↔ IsAtCall (setup_at L.meaning self.now) self.now.entries flow.0 }
    {
        self.fields.at_call(flow)
    }

    /// The key of the take at which a flow is blocked.
    pub fn waits_at(&self, flow: FlowNo) -> Option<Key>
        requires { flow.0 < length self.now.setup.items }
        ensures { MatchOption result
            (IsBlocked (setup_at L.meaning self.now) self.now.entries flow.0 → ⊥)
            (IsBlockedAt (setup_at L.meaning self.now) self.now.entries flow.0) }
    {
        self.fields.waits_at(flow)
    }

    /// Where a flow is blocked.
    pub fn blocked_take(&self, flow: FlowNo) -> Option<BlockedTake>
        requires { flow.0 < length self.now.setup.items }
        ensures { MatchOption result
            (IsBlocked (setup_at L.meaning self.now) self.now.entries flow.0 → ⊥)
            (IsBlockedTake (setup_at L.meaning self.now) self.now.entries flow.0) }
    {
        self.fields.blocked_take(flow)
    }

    /// Whether a flow can go on.
    #[inline(always)]
    pub fn readiness(&self, flow: FlowNo) -> Readiness
        requires { flow.0 < length self.now.setup.items }
        ensures { IsReadiness (setup_at L.meaning self.now) self.now.entries flow.0 result }
    {
        self.fields.readiness(flow)
    }

    /// Whether a flow is in a line: its last entry is a wait.
    pub fn stands(&self, flow: FlowNo) -> bool
        requires { flow.0 < length self.now.setup.items }
        ensures { MatchBool result (IsStanding self.now.entries flow.0) (IsNoWaitLast self.now.entries flow) }
    {
        self.fields.stands(flow)
    }

    /// The flows that wait at a key, first come first.
    pub fn line(&self, key: Key) -> &[Waiter]
        ensures { IsLineAt self.now.entries key result.now }
    {
        self.fields.line(key)
    }
}

impl<L: Library> State<L> {
    /// The lowest flow that holds the key of a flow's next take in conflict.
    pub fn holder(&self, flow: FlowNo, key: Key, mode: Mode) -> Option<FlowNo>
        requires { IsNext (setup_at L.meaning self.now) self.now.entries flow.0 (events.Take key mode) }
        ensures { IsLowestOf (λ other. IsHeldBy self.now.entries other flow.0 key mode) result }
    {
        self.fields.holder(flow, key, mode)
    }

    /// The lowest flow that waits at the key of a flow's next take in conflict, ahead of the flow.
    pub fn ahead(&self, flow: FlowNo, key: Key, mode: Mode) -> Option<FlowNo>
        requires { IsNext (setup_at L.meaning self.now) self.now.entries flow.0 (events.Take key mode) }
        ensures { IsLowestOf (λ other. IsAhead self.now.entries other flow.0 key mode) result }
    {
        self.fields.ahead(flow, key, mode)
    }

    /// The lowest flow that blocks a flow's next take: the lower of these two.
    pub fn blocker(&self, flow: FlowNo, key: Key, mode: Mode) -> Option<FlowNo>
        requires { IsNext (setup_at L.meaning self.now) self.now.entries flow.0 (events.Take key mode) }
        ensures { IsLowestOf (λ other. Blocks self.now.entries other flow.0 key mode) result }
    {
        self.fields.blocker(flow, key, mode)
    }
}

impl<L: Library> State<L> {
    /// Makes a flow's next event, as `next` gave it, which is neither a call nor blocked.
    #[inline(always)]
    pub fn make(&mut self, flow: FlowNo, coming: Coming) -> Result<(), Memory>
        requires comes { Comes (setup_at L.meaning self.old) self.old.entries flow.0 coming }
        requires may { MayMake (setup_at L.meaning self.old) self.old.entries flow }
        ensures ok { OnOk result (Makes L.meaning self.old self.new flow) }
        ensures err { OnErr result (self.new ≡ self.old) }
    {
        self.fields.make(flow, coming)
    }

    /// Lets a flow wait at the key of its next take, which is blocked and has no wait yet.
    pub fn wait(&mut self, flow: FlowNo, key: Key, mode: Mode) -> Result<(), Memory>
        requires { MayStand (setup_at L.meaning self.old) self.old.entries flow key mode }
        ensures ok { OnOk result (AddsWait L.meaning self.old self.new flow key mode) }
        ensures err { OnErr result (self.new ≡ self.old) }
    {
        self.fields.wait(flow, key, mode)
    }

    /// What the call of a node that comes next for a flow, as `next` gave it, is given.
    pub fn inputs(&self, flow: FlowNo, node: NodeNo) -> Result<Inputs, Memory>
        requires { IsComing (setup_at L.meaning self.now) self.now.entries flow.0 (comings.Call node) }
        ensures next { IfOk result (IsNextCall (setup_at L.meaning self.now) self.now.entries flow.0) }
        ensures ready { IfOk result (IsReady (L.meaning self.now.setup.library) self.now.setup.program) }
    {
        self.fields.inputs(flow, node)
    }

    /// Makes the call that comes next for a flow, with the library's answer.
    pub fn answer(&mut self, flow: FlowNo, made: &CallMade) -> Result<(), Memory>
        requires { MayCall (setup_at L.meaning self.old) self.old.entries flow made.now }
        ensures ok { OnOk result (AddsCall L.meaning self.old self.new flow made.now) }
        ensures err { OnErr result (self.new ≡ self.old) }
    {
        self.fields.answer(flow, made)
    }
}
