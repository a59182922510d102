//! The moves of a core but for calls: each is made, and written into the journal.

ghost use Rattle.std.specs.Prelude.{◌≡◌, ◌<◌, Some, length, IfOk, OnErr};
ghost use Rattle.flux_model.specs.declared.programs.NodeNo.{NodeNo};
ghost use Rattle.flow_model.specs.declared.journals.Event.TheVariants as events;
ghost use Rattle.flow_model.specs.Events.{IsNext};
ghost use Rattle.flow_model.specs.Waits.{Blocks};
ghost use Rattle.flux_laws.specs.Moves.{MayStep};
ghost use Rattle.flux_table.specs.Blockers.{IsLowestOf};
ghost use Rattle.flow_state.specs.declared.coming.Coming.TheVariants as comings;
ghost use Rattle.flow_state.specs.Coming.{Comes};
ghost use Rattle.flow_core.specs.States.{setup_in};
ghost use Rattle.flow_core.specs.Moves.{HasStepped, HasSteppedAtOnce};
ghost use Rattle.flow_core.specs.steps.Fields.{core_of, AreFields};
ghost use Rattle.flow_core.specs.steps.Passing.{HasPassed};

use crate::cores::{AtOnce, Step};
use crate::fields::{Fields, take_back, write};
use crate::gates::Gate;
use flow_model::{Entry, Event, KeptKey, Key};
use flow_state::Coming;
use flux_library::Library;
use flux_model::{FlowNo, Mode};
use flux_values::Memory;

impl<L: Library> Fields<L> {
    /// Makes a flow's next event, which is what comes.
    #[inline(always)]
    fn go(&mut self, flow: FlowNo, coming: Coming, event: Event) -> Result<AtOnce, Memory>
        requires fields { AreFields L.meaning self.old }
        requires comes { Comes (setup_in L.meaning (core_of self.old)) self.old.state.entries flow.0 coming }
        requires may { MayStep (setup_in L.meaning (core_of self.old)) self.old.state.entries flow event }
        ensures fields { AreFields L.meaning self.new }
        ensures ok { IfOk result (HasPassed L.meaning (core_of self.old) (core_of self.new) flow) }
        ensures err { OnErr result (core_of self.new ≡ core_of self.old) }
    {
        write(&mut self.journal, Entry { flow, event })?;
        match self.state.make(flow, coming) {
            Ok(()) => Ok(AtOnce::Went),
            Err(memory) => {
                take_back(&mut self.journal);
                Err(memory)
            }
        }
    }

    /// Lets a flow wait at the key of its next take, which others block, unless it waits there.
    #[inline(always)]
    fn wait(&mut self, flow: FlowNo, key: Key, mode: Mode, holder: FlowNo) -> Result<AtOnce, Memory>
        requires fields { AreFields L.meaning self.old }
        requires next { IsNext (setup_in L.meaning (core_of self.old)) self.old.state.entries flow.0
            (events.Take key mode) }
        requires blocked { IsLowestOf
            (λ other. Blocks self.old.state.entries other flow.0 key mode) (Some holder) }
        ensures fields { AreFields L.meaning self.new }
        ensures ok { IfOk result (HasPassed L.meaning (core_of self.old) (core_of self.new) flow) }
        ensures err { OnErr result (core_of self.new ≡ core_of self.old) }
    {
        if self.state.stands(flow) {
            return Ok(AtOnce::Waits { key, holder });
        }
        let event = Event::Wait(KeptKey::new(key), mode);
        write(&mut self.journal, Entry { flow, event })?;
        match self.state.wait(flow, key, mode) {
            Ok(()) => Ok(AtOnce::Waits { key, holder }),
            Err(memory) => {
                take_back(&mut self.journal);
                Err(memory)
            }
        }
    }

    /// Lets a flow take a key, or wait for it.
    #[inline(always)]
    fn take(&mut self, flow: FlowNo, key: Key, mode: Mode) -> Result<AtOnce, Memory>
        requires fields { AreFields L.meaning self.old }
        requires comes { Comes (setup_in L.meaning (core_of self.old)) self.old.state.entries flow.0
            (comings.Take key mode) }
        ensures fields { AreFields L.meaning self.new }
        ensures ok { IfOk result (HasPassed L.meaning (core_of self.old) (core_of self.new) flow) }
        ensures err { OnErr result (core_of self.new ≡ core_of self.old) }
    {
        match self.state.blocker(flow, key, mode) {
            Some(holder) => self.wait(flow, key, mode, holder),
            None => self.go(
                flow,
                Coming::Take(key, mode),
                Event::Take(KeptKey::new(key), mode),
            ),
        }
    }

    /// Lets a flow do what comes next, which is no call.
    #[inline(always)]
    fn pass(&mut self, flow: FlowNo, coming: Coming) -> Result<AtOnce, Memory>
        requires fields { AreFields L.meaning self.old }
        requires comes { Comes (setup_in L.meaning (core_of self.old)) self.old.state.entries flow.0 coming }
        requires no_call { (node : NodeNo) → coming ≡ comings.Call node → ⊥ }
        ensures fields { AreFields L.meaning self.new }
        ensures ok { IfOk result (HasPassed L.meaning (core_of self.old) (core_of self.new) flow) }
        ensures err { OnErr result (core_of self.new ≡ core_of self.old) }
    {
        match coming {
            Coming::Ended => Ok(AtOnce::Ended),
            Coming::Call(_) => unreachable!(),
            Coming::Take(key, mode) => self.take(flow, key, mode),
            Coming::Enter(node) => self.go(flow, coming, Event::Enter(node)),
            Coming::Choose(number) => self.go(flow, coming, Event::Choose(number)),
            Coming::Exit(node, outcome) => self.go(flow, coming, Event::Exit(node, outcome)),
            Coming::Drop(key) => self.go(flow, coming, Event::Drop(KeptKey::new(key))),
            Coming::End(outcome) => self.go(flow, coming, Event::End(outcome)),
        }
    }

    /// Lets a flow do what comes next. A call is begun.
    pub fn step(&mut self, flow: FlowNo) -> Result<Step<L>, Memory>
        requires fields { AreFields L.meaning self.old }
        requires flow { flow.0 < length self.old.state.setup.items }
        ensures fields { AreFields L.meaning self.new }
        ensures ok { IfOk result (HasStepped L.meaning (core_of self.old) (core_of self.new) flow) }
        ensures err { OnErr result (core_of self.new ≡ core_of self.old) }
    {
        if self.is_calling(flow) {
            return Ok(Step::Calling);
        }
        let coming = self.state.next(flow);
        if let Coming::Call(node) = coming {
            return Ok(Step::Job(self.begin(flow, node)?));
        }
        match self.pass(flow, coming)? {
            AtOnce::Ended => Ok(Step::Ended),
            AtOnce::Waits { key, holder } => Ok(Step::Waits { key, holder }),
            AtOnce::Went => Ok(Step::Went),
            AtOnce::Calling | AtOnce::Called => unreachable!(),
        }
    }

    /// Lets a flow do what comes next. A call is made at once.
    pub fn step_at_once<G: Gate>(&mut self, gate: &G, flow: FlowNo) -> Result<AtOnce, Memory>
        requires fields { AreFields L.meaning self.old }
        requires flow { flow.0 < length self.old.state.setup.items }
        ensures fields { AreFields L.meaning self.new }
        ensures ok { IfOk result (HasSteppedAtOnce L.meaning (core_of self.old) (core_of self.new) flow) }
        ensures err { OnErr result (core_of self.new ≡ core_of self.old) }
    {
        if self.is_calling(flow) {
            return Ok(AtOnce::Calling);
        }
        let coming = self.state.next(flow);
        match coming {
            Coming::Call(node) => {
                self.call(gate, flow, node)?;
                Ok(AtOnce::Called)
            }
            _ => self.pass(flow, coming),
        }
    }
}
