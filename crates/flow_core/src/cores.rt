//! The core, and its moves.

ghost use Rattle.std.specs.Prelude.{◌≡◌, ◌<◌, ◌↔◌, length, IsTrue, IsSome, true, false, IfOk, OnErr, MatchOption, option_map};
ghost use Rattle.std.specs.Arc.{arc_value};
ghost use Rattle.flow_model.specs.CellsAfter.{cells_after};
ghost use Rattle.flux_laws.specs.Going.{IsBlocked, IsAtCall};
ghost use Rattle.flux_laws.specs.Growth.{has_ended};
ghost use Rattle.flux_cells.specs.Kept.{cells_of};
ghost use Rattle.flow_state.specs.States.{MayRun};
ghost use Rattle.flow_state.specs.Calls.{library_name};
ghost use Rattle.flow_state.specs.Blockers.{IsBlockedAt};
ghost use Rattle.flow_state.specs.Lines.{IsBlockedTake, IsReadiness, IsLineAt};
ghost use Rattle.flow_core.specs.States.{setup_in, begun_by, opened, IsKept};
ghost use Rattle.flow_core.specs.Moves.{HasStepped, HasSteppedAtOnce, HasFinished, ComesWherever, ComesAtOnceWherever, job_of};
ghost use Rattle.flow_core.specs.Runs.{live_count, GoesOn, LeavesOthers};

use crate::calls::{CallDone, Job};
use crate::fields::Fields;
use crate::gates::Gate;
use flow_model::{Journal, Key};
use flow_state::{BlockedTake, Readiness, Setup};
use flux_cells::Cells;
use flux_library::Library;
use flux_model::FlowNo;
use flux_table::Waiter;
use flux_values::Memory;
use std::alloc::Global;
use std::marker::Model;

/// What a step did.
#[derive(Drop)]
pub enum Step<L: Library> {
    /// Nothing: the flow has had its `end`.
    Ended,
    /// Nothing: the flow's call is begun, and wants to be finished.
    Calling,
    /// The flow's next take is blocked; the lowest flow that blocks it is named.
    Waits { key: Key, holder: FlowNo },
    /// The flow's next event is a call, which is begun now.
    Job(Job<L>),
    /// The flow's next event was made.
    Went,
}

/// What a step at once did.
#[derive(Clone, Copy, PartialEq, Eq)]
pub enum AtOnce {
    /// Nothing: the flow has had its `end`.
    Ended,
    /// Nothing: the flow's call was begun before, and wants to be finished.
    Calling,
    /// The flow's next take is blocked; the lowest flow that blocks it is named.
    Waits { key: Key, holder: FlowNo },
    /// The flow's next event, a call, was made.
    Called,
    /// The flow's next event, which is no call, was made.
    Went,
}

/// What became of a finished call.
#[derive(Clone, Copy, PartialEq, Eq)]
pub enum Finish {
    Went,
    /// Nothing: the flow has no such begun call.
    Late,
}

/// Flows over a setup, and the journal of what they did. What it keeps at every moment is reported by `journal`.
pub struct Core<L: Library> {
    fields: Fields<L>,
}

impl<L: Library> Drop for Core<L> {
    fn drop(self) {
        let Core { fields } = self;
    }
}

impl<L: Library> Model for Core<L> {
    ghost use Rattle.flow_core.specs.States.{CoreState, core_code};

    ghost Value = { CoreState L };

    ghost coded = { core_code L.code };

    ghost use Rattle.flow_core.specs.steps.Fields.{core_of, AreFields};

    ghost view = { λ c. core_of c.fields };

    ghost invariant = { λ c. AreFields L.meaning c.fields };
}

impl<L: Library> Core<L> {
    /// Flows that have done nothing.
    pub fn new(alloc: Global, setup: Setup<L>) -> Result<Core<L>, Memory>
        requires { MayRun (L.meaning (arc_value setup.library)) (arc_value setup.program)
            (arc_value setup.plans) setup.items }
        ensures { IfOk result (λ core. core ≡ opened (arc_value setup.program) (arc_value setup.plans)
            setup.items setup.opening (arc_value setup.library)) }
    {
        Ok(Core {
            fields: Fields::new(alloc, setup)?,
        })
    }

    /// Lets a flow do what comes next.
    pub fn step(&mut self, flow: FlowNo) -> Result<Step<L>, Memory>
        requires { flow.0 < length self.old.setup.items }
        ensures ok { IfOk result (HasStepped L.meaning self.old self.new flow) }
        ensures each { IfOk result (ComesWherever L.meaning self.old flow) }
        ensures err { OnErr result (self.new ≡ self.old) }
        ensures on { GoesOn self.old self.new }
        ensures others { LeavesOthers self.old self.new flow }
        ensures kept { IsKept L.meaning self.new }
    {
        self.fields.step(flow)
    }

    /// Does what `step` does, but makes a call at once: none is begun. The gate is called before and after the call.
    pub fn step_at_once<G: Gate>(&mut self, gate: &G, flow: FlowNo) -> Result<AtOnce, Memory>
        requires { flow.0 < length self.old.setup.items }
        ensures ok { IfOk result (HasSteppedAtOnce L.meaning self.old self.new flow) }
        ensures each { IfOk result (ComesAtOnceWherever L.meaning self.old flow) }
        ensures err { OnErr result (self.new ≡ self.old) }
        ensures on { GoesOn self.old self.new }
        ensures others { LeavesOthers self.old self.new flow }
    {
        self.fields.step_at_once(gate, flow)
    }

    /// Takes the answer of a begun call, which may have been made anywhere.
    pub fn finish(&mut self, done: &CallDone<L>) -> Result<Finish, Memory>
        requires library { L.meaning done.now.library ≡ L.meaning self.old.setup.library }
        requires name { library_name done.now.program done.now.inputs.node
            ≡ library_name self.old.setup.program done.now.inputs.node }
        ensures ok { IfOk result (HasFinished L.meaning self.old self.new done.now.flow done.now.inputs
            done.now.answer) }
        ensures err { OnErr result (self.new ≡ self.old) }
        ensures on { GoesOn self.old self.new }
        ensures others { LeavesOthers self.old self.new done.now.flow }
        ensures kept { IsKept L.meaning self.new }
    {
        let flow = done.flow();
        let inputs = done.inputs();
        if !self.fields.has_begun(flow, inputs)? {
            return Ok(Finish::Late);
        }
        self.fields.answer(flow, inputs, done.shared_answer())?;
        Ok(Finish::Went)
    }

    /// The call that a flow has begun, once more.
    pub fn recall(&self, flow: FlowNo) -> Result<Option<Job<L>>, Memory>
        requires { flow.0 < length self.now.setup.items }
        ensures { IfOk result (λ job. job
            ≡ option_map (job_of L.meaning self.now self.now flow) (begun_by self.now flow.0)) }
    {
        self.fields.recall(flow)
    }
}

impl<L: Library> Core<L> {
    /// The number of flows.
    pub fn flows(&self) -> u32
        ensures { result ≡ length self.now.setup.items }
    {
        self.fields.state.flows()
    }

    /// The number of flows without `end`.
    pub fn live(&self) -> u32
        ensures { result ≡ live_count self.now }
    {
        self.fields.state.live()
    }

    pub fn is_ended(&self, flow: FlowNo) -> bool
        requires { flow.0 < length self.now.setup.items }
        ensures { result ≡ has_ended self.now.entries flow.0 }
    {
        self.fields.state.is_ended(flow)
    }

    pub fn blocked(&self, flow: FlowNo) -> bool
        requires { flow.0 < length self.now.setup.items }
        ensures { IsTrue result ↔ IsBlocked (setup_in L.meaning self.now) self.now.entries flow.0 }
    {
        self.waits_at(flow).is_some()
    }

    /// The key of the take at which a flow is blocked.
    pub fn waits_at(&self, flow: FlowNo) -> Option<Key>
        requires { flow.0 < length self.now.setup.items }
        ensures { MatchOption result (IsBlocked (setup_in L.meaning self.now) self.now.entries flow.0 → ⊥)
            (IsBlockedAt (setup_in L.meaning self.now) self.now.entries flow.0) }
    {
        self.fields.state.waits_at(flow)
    }

    /// Whether a flow's call is begun.
    pub fn is_calling(&self, flow: FlowNo) -> bool
        requires { flow.0 < length self.now.setup.items }
        ensures { IsTrue result ↔ IsSome (begun_by self.now flow.0) }
    {
        self.fields.is_calling(flow)
    }

    /// Whether a flow's next event is a call, begun or not.
    pub fn at_call(&self, flow: FlowNo) -> bool
        requires { flow.0 < length self.now.setup.items }
        ensures { IsTrue result ↔ IsAtCall (setup_in L.meaning self.now) self.now.entries flow.0 }
    {
        self.fields.state.at_call(flow)
    }
}

impl<L: Library> Core<L> {
    /// Whether a flow has ended, is blocked, or is neither; whether its call is begun isn't asked.
    pub fn readiness(&self, flow: FlowNo) -> Readiness
        requires { flow.0 < length self.now.setup.items }
        ensures { IsReadiness (setup_in L.meaning self.now) self.now.entries flow.0 result }
    {
        self.fields.state.readiness(flow)
    }

    /// Where a flow is blocked.
    pub fn blocked_take(&self, flow: FlowNo) -> Option<BlockedTake>
        requires { flow.0 < length self.now.setup.items }
        ensures { MatchOption result (IsBlocked (setup_in L.meaning self.now) self.now.entries flow.0 → ⊥)
            (IsBlockedTake (setup_in L.meaning self.now) self.now.entries flow.0) }
    {
        self.fields.state.blocked_take(flow)
    }

    /// The allocator that the core was made with.
    pub fn alloc(&self) -> Global {
        self.fields.state.alloc()
    }

    /// The flows that wait at a key, first come first.
    pub fn line(&self, key: Key) -> &[Waiter]
        ensures { IsLineAt self.now.entries key result.now }
    {
        self.fields.state.line(key)
    }
}

impl<L: Library> Core<L> {
    /// Sets a flag, on which no other call depends.
    pub fn halt(&mut self)
        ensures { self.new ≡ record self.old { halted = true } }
    {
        self.fields.halted = true;
    }

    pub fn resume(&mut self)
        ensures { self.new ≡ record self.old { halted = false } }
    {
        self.fields.halted = false;
    }

    pub fn is_halted(&self) -> bool
        ensures { result ≡ self.now.halted }
    {
        self.fields.halted
    }
}

impl<L: Library> Core<L> {
    /// What the flows did, and what a core keeps at every moment.
    pub fn journal(&self) -> &Journal
        ensures same { result.now.entries ≡ self.now.entries }
        ensures kept { IsKept L.meaning self.now }
    {
        &self.fields.journal
    }

    pub fn cells(&self) -> &Cells
        ensures { cells_of result.now ≡ cells_after (setup_in L.meaning self.now) self.now.entries }
    {
        self.fields.state.cells()
    }

    pub fn into_parts(self) -> (Journal, Cells)
        ensures journal { result.0.entries ≡ self.entries }
        ensures cells { cells_of result.1 ≡ cells_after (setup_in L.meaning self) self.entries }
        ensures kept { IsKept L.meaning self }
    {
        let Core { fields } = self;
        let Fields { state, journal, .. } = fields;
        let (_, cells) = state.into_parts();
        (journal, cells)
    }
}
