//! The fields of a state.

ghost use Rattle.std.specs.Prelude.{◌≡◌, ◌<◌, length, Some};
ghost use Rattle.flow_model.specs.Setup.{item_of};
ghost use Rattle.flow_model.specs.CellsAfter.{key_for};
ghost use Rattle.flow_state.specs.States.{setup_at};
ghost use Rattle.flow_state.specs.Coming.{Comes};
ghost use Rattle.flow_state.specs.steps.Places.{IsComing};
ghost use Rattle.flow_state.specs.steps.Fields.{state_of, plans_of, AreFields};

use crate::coming::Coming;
use crate::keys::key_in;
use crate::made::Made;
use crate::places::Place;
use crate::setups::Setup;
use flow_model::Key;
use flux_cells::Cells;
use flux_library::Library;
use flux_model::{ClassNo, FlowNo};
use flux_plan::Next;
use flux_table::Table;
use flux_values::List;
use std::alloc::Global;

/// What a state keeps beside its setup: each flow's place, who holds each key and waits for it, the cells, how many
/// flows have not ended, the classes of the cells that each node uses, and, for clauses alone, the entries that were
/// made.
#[derive(Drop)]
pub struct Fields<L: Library> {
    pub alloc: Global,
    pub setup: Setup<L>,
    pub places: Vec<Place>,
    pub table: Table,
    pub cells: Cells,
    pub live: u32,
    pub reads: List<List<Option<ClassNo>>>,
    pub made: Made,
}

impl<L: Library> Fields<L> {
    /// What comes next at a flow's place in its plan.
    #[inline(always)]
    pub fn next(&self, flow: FlowNo) -> Next
        requires fields { AreFields L.meaning self.now }
        requires flow { flow.0 < length self.now.setup.items }
        ensures { IsComing (setup_at L.meaning (state_of self.now)) (plans_of self.now)
            self.now.places.items flow.0 result }
    {
        let place = &self.places[flow.0 as usize];
        self.setup.next(flow, &place.local)
    }

    /// Does nothing. Its clause: something comes next at the flow's place.
    pub fn has_next(&self, flow: FlowNo)
        requires fields { AreFields L.meaning self.now }
        requires flow { flow.0 < length self.now.setup.items }
        ensures { (next : Next) × IsComing (setup_at L.meaning (state_of self.now)) (plans_of self.now)
            self.now.places.items flow.0 next }
    {
        let place = &self.places[flow.0 as usize];
        self.setup.has_next(flow, &place.local);
    }

    /// A flow's key of a class.
    #[inline(always)]
    pub fn key(&self, flow: FlowNo, class: ClassNo) -> Key
        requires fields { AreFields L.meaning self.now }
        requires flow { flow.0 < length self.now.setup.items }
        ensures { let setup = setup_at L.meaning (state_of self.now) in
            key_for setup (item_of setup flow.0) class ≡ Some result }
    {
        key_in(
            &self.setup.program,
            self.places[flow.0 as usize].session,
            class,
        )
    }

    /// What comes next for a flow.
    #[inline(always)]
    pub fn coming(&self, flow: FlowNo) -> Coming
        requires fields { AreFields L.meaning self.now }
        requires flow { flow.0 < length self.now.setup.items }
        ensures { Comes (setup_at L.meaning (state_of self.now)) self.now.made flow.0 result }
    {
        match self.next(flow) {
            Next::Take(class, mode) => Coming::Take(self.key(flow, class), mode),
            Next::Enter(node) => Coming::Enter(node),
            Next::Choose(number) => Coming::Choose(number),
            Next::Call(node) => Coming::Call(node),
            Next::Exit(node, outcome) => Coming::Exit(node, outcome),
            Next::Drop(class) => Coming::Drop(self.key(flow, class)),
            Next::End(outcome) => Coming::End(outcome),
            Next::Ended => Coming::Ended,
        }
    }
}
