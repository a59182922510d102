//! How calls are begun and finished, or made at once.

ghost use Rattle.std.specs.Prelude.{◌≡◌, ◌<◌, ◌↔◌, List, [], ◌∷◌, ◌++◌, Some, None, length, IsTrue, IsSome, IfOk, OnOk, OnErr, option_map};
ghost use Rattle.flux_model.specs.declared.items.FlowNo.{FlowNo};
ghost use Rattle.flow_model.specs.declared.journals.CallMade.{CallMade};
ghost use Rattle.flow_model.specs.declared.journals.Entry.{Entry};
ghost use Rattle.flow_model.specs.declared.journals.Event.TheVariants as events;
ghost use Rattle.flux_laws.specs.Moves.{MayCall};
ghost use Rattle.flow_state.specs.declared.coming.Coming.TheVariants as comings;
ghost use Rattle.flow_state.specs.States.{setup_at};
ghost use Rattle.flow_state.specs.Coming.{IsComing};
ghost use Rattle.flow_state.specs.Calls.{IsReady, IsNextCall, IsAnswerOf, made_of};
ghost use Rattle.flow_state.specs.Moves.{AddsCall};
ghost use Rattle.flow_core.specs.States.{setup_in, begun_by};
ghost use Rattle.flow_core.specs.Moves.{FinishesCall, HasBegun, CallsAtOnce, job_of};
ghost use Rattle.flow_core.specs.steps.Fields.{core_of, AreFields};

use crate::calls::{Begun, Job, answer_of};
use crate::fields::{Fields, take_back, write};
use crate::gates::Gate;
use crate::sameness::same_inputs;
use flow_model::{CallMade, Entry, Event, Journal, SharedAnswer};
use flow_state::{Inputs, State};
use flux_library::Library;
use flux_model::{FlowNo, NodeNo};
use flux_values::Memory;

/// A call with its answer, both shared.
fn share_call(inputs: &Inputs, answer: &SharedAnswer) -> Result<CallMade, Memory>
    ensures { IfOk result (λ made. made ≡ made_of inputs.now answer.now) }
{
    Ok(CallMade {
        node: inputs.node,
        args: inputs.args.share()?,
        answer: answer.share()?,
    })
}

/// The call of the last entry, if it is one.
fn last_call(journal: &Journal) -> Option<&CallMade>
    ensures { (before : List Entry) (flow : FlowNo) (made : CallMade)
        → journal.now.entries ≡ before ++ record { flow = flow; event = events.Call made } ∷ []
        → option_map (λ call. call.now) result ≡ Some made }
{
    match journal.entries.last() {
        Some(
            Entry {
                event: Event::Call(made),
                ..
            },
        ) => Some(made),
        _ => None,
    }
}

/// Adds a flow's call, which comes next.
fn add_call<L: Library>(
    state: &mut State<L>,
    journal: &mut Journal,
    flow: FlowNo,
    made: CallMade,
) -> Result<(), Memory>
    requires { MayCall (setup_at L.meaning state.old) state.old.entries flow made }
    ensures adds { OnOk result (AddsCall L.meaning state.old state.new flow made) }
    ensures written { OnOk result (journal.new.entries ≡ journal.old.entries
        ++ record { flow = flow; event = events.Call made } ∷ []) }
    ensures still { OnErr result (state.new ≡ state.old) }
    ensures back { OnErr result (journal.new.entries ≡ journal.old.entries) }
{
    let event = Event::Call(made);
    write(journal, Entry { flow, event })?;
    let Some(made) = last_call(journal) else {
        unreachable!()
    };
    match state.answer(flow, made) {
        Ok(()) => Ok(()),
        Err(memory) => {
            take_back(journal);
            Err(memory)
        }
    }
}

impl<L: Library> Fields<L> {
    /// The job of a call that comes next.
    fn job(&self, flow: FlowNo, begun: &Begun) -> Result<Job<L>, Memory>
        requires fields { AreFields L.meaning self.now }
        requires next { IsNextCall (setup_in L.meaning (core_of self.now)) self.now.state.entries flow.0
            begun.now }
        ensures { IfOk result (λ job. job
            ≡ job_of L.meaning (core_of self.now) (core_of self.now) flow begun.now) }
    {
        let setup = self.state.setup();
        Job::new(flow, begun, &setup.program, &setup.library)
    }

    /// Begins a flow's call, which comes next.
    pub fn begin(&mut self, flow: FlowNo, node: NodeNo) -> Result<Job<L>, Memory>
        requires fields { AreFields L.meaning self.old }
        requires flow { flow.0 < length self.old.state.setup.items }
        requires comes { IsComing (setup_in L.meaning (core_of self.old)) self.old.state.entries flow.0
            (comings.Call node) }
        requires idle { begun_by (core_of self.old) flow.0 ≡ None }
        ensures fields { AreFields L.meaning self.new }
        ensures ok { IfOk result (HasBegun L.meaning (core_of self.old) (core_of self.new) flow) }
        ensures err { OnErr result (core_of self.new ≡ core_of self.old) }
    {
        let inputs = self.state.inputs(flow, node)?;
        let begun = Begun::new(self.state.alloc(), inputs)?;
        let job = self.job(flow, &begun)?;
        self.begun[flow.0 as usize] = Some(begun);
        Ok(job)
    }

    /// Whether a flow's call is begun.
    pub fn is_calling(&self, flow: FlowNo) -> bool
        requires fields { AreFields L.meaning self.now }
        requires flow { flow.0 < length self.now.state.setup.items }
        ensures { IsTrue result ↔ IsSome (begun_by (core_of self.now) flow.0) }
    {
        self.begun[flow.0 as usize].is_some()
    }

    /// The job of the call that a flow has begun.
    pub fn recall(&self, flow: FlowNo) -> Result<Option<Job<L>>, Memory>
        requires fields { AreFields L.meaning self.now }
        requires flow { flow.0 < length self.now.state.setup.items }
        ensures { IfOk result (λ job. job ≡ option_map
            (job_of L.meaning (core_of self.now) (core_of self.now) flow)
            (begun_by (core_of self.now) flow.0)) }
    {
        match &self.begun[flow.0 as usize] {
            Some(begun) => Ok(Some(self.job(flow, begun)?)),
            None => Ok(None),
        }
    }

    /// Whether a flow has begun a call with these inputs.
    pub fn has_begun(&self, flow: FlowNo, inputs: &Inputs) -> Result<bool, Memory>
        ensures { IfOk result (λ has. IsTrue has
            ↔ (begun_by (core_of self.now) flow.0 ≡ Some inputs.now)) }
    {
        match self.begun.get(flow.0 as usize) {
            Some(Some(begun)) => same_inputs(begun.as_inputs(), inputs),
            _ => Ok(false),
        }
    }

    /// Adds a flow's begun call with its answer.
    pub fn answer(
        &mut self,
        flow: FlowNo,
        inputs: &Inputs,
        answer: &SharedAnswer,
    ) -> Result<(), Memory>
        requires fields { AreFields L.meaning self.old }
        requires flow { flow.0 < length self.old.state.setup.items }
        requires begun { begun_by (core_of self.old) flow.0 ≡ Some inputs.now }
        requires right { IsAnswerOf (L.meaning self.old.state.setup.library) self.old.state.setup.program
            inputs.now answer.now }
        ensures fields { AreFields L.meaning self.new }
        ensures ok { OnOk result (FinishesCall L.meaning (core_of self.old) (core_of self.new) flow
            inputs.now answer.now) }
        ensures err { OnErr result (core_of self.new ≡ core_of self.old) }
    {
        let made = share_call(inputs, answer)?;
        add_call(&mut self.state, &mut self.journal, flow, made)?;
        self.begun[flow.0 as usize] = None;
        Ok(())
    }

    /// Makes a flow's call, which comes next, at once.
    pub fn call<G: Gate>(&mut self, gate: &G, flow: FlowNo, node: NodeNo) -> Result<(), Memory>
        requires fields { AreFields L.meaning self.old }
        requires comes { IsComing (setup_in L.meaning (core_of self.old)) self.old.state.entries flow.0
            (comings.Call node) }
        requires idle { begun_by (core_of self.old) flow.0 ≡ None }
        ensures fields { AreFields L.meaning self.new }
        ensures ok { OnOk result ((made : CallMade)
            × CallsAtOnce L.meaning (core_of self.old) (core_of self.new) flow made) }
        ensures err { OnErr result (core_of self.new ≡ core_of self.old) }
    {
        let inputs = self.state.inputs(flow, node)?;
        gate.before(flow, node);
        let answer = self.answer_to(&inputs);
        gate.after(flow, node);
        let made = inputs.answered(answer?);
        add_call(&mut self.state, &mut self.journal, flow, made)?;
        Ok(())
    }

    /// The library's answer to a call that comes next.
    fn answer_to(&self, inputs: &Inputs) -> Result<SharedAnswer, Memory>
        requires { IsReady (L.meaning self.now.state.setup.library) self.now.state.setup.program inputs.now }
        ensures { IfOk result (IsAnswerOf (L.meaning self.now.state.setup.library)
            self.now.state.setup.program inputs.now) }
    {
        let setup = self.state.setup();
        answer_of(self.state.alloc(), &setup.program, &*setup.library, inputs)
    }
}
