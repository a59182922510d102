//! Calls that are made, with their answers.

ghost use Rattle.std.specs.Prelude.{◌≡◌, ◌<◌, [], length, OnOk, OnErr};
ghost use Rattle.flux_laws.specs.Moves.{MayCall};
ghost use Rattle.flux_plan.specs.declared.locals.Next.TheVariants as nexts;
ghost use Rattle.flow_state.specs.States.{setup_at};
ghost use Rattle.flow_state.specs.Moves.{AddsCall};
ghost use Rattle.flow_state.specs.steps.Places.{IsComing};
ghost use Rattle.flow_state.specs.steps.Fields.{state_of, plans_of, AreFields};

use crate::fields::Fields;
use crate::keys::apply_in;
use crate::reads::declared_of;
use flow_model::{CallMade, Carried};
use flux_library::Library;
use flux_model::FlowNo;
use flux_values::Memory;

impl<L: Library> Fields<L> {
    /// Makes the call that comes next for a flow.
    pub fn answer(&mut self, flow: FlowNo, made: &CallMade) -> Result<(), Memory>
        requires fields { AreFields L.meaning self.old }
        requires flow { flow.0 < length self.old.setup.items }
        requires may { MayCall (setup_at L.meaning (state_of self.old)) self.old.made flow made.now }
        ensures fields { AreFields L.meaning self.new }
        ensures ok { OnOk result
            (AddsCall L.meaning (state_of self.old) (state_of self.new) flow made.now) }
        ensures err { OnErr result (state_of self.new ≡ state_of self.old) }
    {
        self.has_next(flow);
        if made.answer.as_answer().puts.is_empty() {
            self.answer_alone(flow, made)
        } else {
            self.answer_with_puts(flow, made)
        }
    }

    /// The same for an answer without puts.
    fn answer_alone(&mut self, flow: FlowNo, made: &CallMade) -> Result<(), Memory>
        requires fields { AreFields L.meaning self.old }
        requires flow { flow.0 < length self.old.setup.items }
        requires may { MayCall (setup_at L.meaning (state_of self.old)) self.old.made flow made.now }
        requires coming { IsComing (setup_at L.meaning (state_of self.old)) (plans_of self.old)
            self.old.places.items flow.0 (nexts.Call made.now.node) }
        requires alone { made.now.answer.puts ≡ [] }
        ensures fields { AreFields L.meaning self.new }
        ensures ok { OnOk result
            (AddsCall L.meaning (state_of self.old) (state_of self.new) flow made.now) }
        ensures err { OnErr result (state_of self.new ≡ state_of self.old) }
    {
        let values = Carried::from_answer(self.alloc, &made.answer)?;
        let place = &mut self.places[flow.0 as usize];
        self.setup
            .take_answer(flow, &mut place.local, &made.answer, values);
        self.made.add_call(flow, made);
        Ok(())
    }

    /// The same with puts. The flow's place is changed last, with values that are at hand by then, since puts can't be
    /// undone.
    fn answer_with_puts(&mut self, flow: FlowNo, made: &CallMade) -> Result<(), Memory>
        requires fields { AreFields L.meaning self.old }
        requires flow { flow.0 < length self.old.setup.items }
        requires may { MayCall (setup_at L.meaning (state_of self.old)) self.old.made flow made.now }
        requires coming { IsComing (setup_at L.meaning (state_of self.old)) (plans_of self.old)
            self.old.places.items flow.0 (nexts.Call made.now.node) }
        ensures fields { AreFields L.meaning self.new }
        ensures ok { OnOk result
            (AddsCall L.meaning (state_of self.old) (state_of self.new) flow made.now) }
        ensures err { OnErr result (state_of self.new ≡ state_of self.old) }
    {
        let values = Carried::from_answer(self.alloc, &made.answer)?;
        let place = &mut self.places[flow.0 as usize];
        apply_in(
            self.alloc,
            &self.setup.program,
            &mut self.cells,
            place.session,
            declared_of(&self.setup.program, made.node),
            &made.answer.as_answer().puts,
        )?;
        self.setup
            .take_answer(flow, &mut place.local, &made.answer, values);
        self.made.add_call(flow, made);
        Ok(())
    }
}
