//! A flow's next event, whichever it is.

ghost use Rattle.std.specs.Prelude.{◌≡◌, ◌<◌, length, OnOk, OnErr};
ghost use Rattle.flow_state.specs.States.{setup_at};
ghost use Rattle.flow_state.specs.Coming.{Comes};
ghost use Rattle.flow_state.specs.Moves.{MayMake, Makes};
ghost use Rattle.flow_state.specs.steps.Fields.{state_of, AreFields};

use crate::coming::Coming;
use crate::fields::Fields;
use flow_model::Event;
use flux_library::Library;
use flux_model::FlowNo;
use flux_values::Memory;

impl<L: Library> Fields<L> {
    /// Makes a flow's next event, which is what comes.
    pub fn make(&mut self, flow: FlowNo, coming: Coming) -> Result<(), Memory>
        requires fields { AreFields L.meaning self.old }
        requires flow { flow.0 < length self.old.setup.items }
        requires comes { Comes (setup_at L.meaning (state_of self.old)) self.old.made flow.0 coming }
        requires may { MayMake (setup_at L.meaning (state_of self.old)) self.old.made flow }
        ensures fields { AreFields L.meaning self.new }
        ensures ok { OnOk result (Makes L.meaning (state_of self.old) (state_of self.new) flow) }
        ensures err { OnErr result (state_of self.new ≡ state_of self.old) }
    {
        self.has_next(flow);
        match coming {
            Coming::Take(key, mode) => self.acquire(flow, key, mode),
            Coming::Enter(node) => self.go(flow, Event::Enter(node)),
            Coming::Choose(number) => self.go(flow, Event::Choose(number)),
            Coming::Exit(node, outcome) => self.go(flow, Event::Exit(node, outcome)),
            Coming::Drop(key) => self.release(flow, key),
            Coming::End(outcome) => self.end(flow, outcome),
            Coming::Call(_) | Coming::Ended => unreachable!(),
        }
    }
}
