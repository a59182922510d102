//! Flows that have made nothing.

ghost use Rattle.std.specs.Prelude.{◌≡◌, ℕ, Some, [], slice_get, IfOk, IsSome};
ghost use Rattle.std.specs.Arc.{arc_value};
ghost use Rattle.flux_model.specs.declared.items.Item.{Item};
ghost use Rattle.flow_model.specs.Keys.{session_number};
ghost use Rattle.flow_state.specs.States.{setup_of, MayRun};
ghost use Rattle.flow_state.specs.steps.Starts.{IsFreshPlace, AreFreshPlaces};
ghost use Rattle.flow_state.specs.steps.Fields.{state_of, AreFields};

use crate::fields::Fields;
use crate::made::Made;
use crate::places::Place;
use crate::setups::Setup;
use crate::uses::classes_read;
use flux_library::Library;
use flux_library::answers::copies;
use flux_model::{Item, SourceLine};
use flux_plan::Local;
use flux_table::Table;
use flux_values::{Memory, Value};
use std::alloc::Global;

impl<L: Library> Setup<L> {
    /// The number of a session's values on a source line; 0 where the line has no session function.
    fn session(&self, line: &SourceLine, values: &[Value]) -> u64
        ensures { result
            ≡ session_number (L.meaning (arc_value self.now.library)) line.now.session values.now }
    {
        match &line.session {
            Some(function) => self.library.id(function.as_bytes(), values),
            None => 0,
        }
    }

    /// An item's flow at its beginning.
    fn place(&self, alloc: Global, item: &Item) -> Result<Place, Memory>
        requires { let p = arc_value self.now.program in IsSome (slice_get p.sources item.now.source.0) }
        ensures { IfOk result (IsFreshPlace (L.meaning (arc_value self.now.library))
            (arc_value self.now.program) item.now) }
    {
        let Some(line) = self.program.sources.get(item.source.0 as usize) else {
            unreachable!()
        };
        let session = self.session(line, item.values.as_slice());
        let values = copies(alloc, item.values.as_slice())?;
        Ok(Place {
            local: Local::new(alloc, values)?,
            session,
            stands: false,
        })
    }

    /// All flows at their beginnings.
    fn places(&self, alloc: Global) -> Result<Vec<Place>, Memory>
        requires { let p = arc_value self.now.program in (flow : ℕ) (item : Item)
            → slice_get self.now.items flow ≡ Some item → IsSome (slice_get p.sources item.source.0) }
        ensures { IfOk result (λ places. AreFreshPlaces (L.meaning (arc_value self.now.library))
            (arc_value self.now.program) self.now.items places.items) }
    {
        let mut places = Vec::new(alloc);
        for item in self.items.as_slice() {
            places.push(self.place(alloc, item)?)?;
        }
        Ok(places)
    }
}

impl<L: Library> Fields<L> {
    /// Flows that have made nothing.
    pub fn new(alloc: Global, setup: Setup<L>) -> Result<Fields<L>, Memory>
        requires { MayRun (L.meaning (arc_value setup.library)) (arc_value setup.program)
            (arc_value setup.plans) setup.items }
        ensures state { IfOk result (λ fields. state_of fields
            ≡ record { setup = setup_of setup; entries = [] }) }
        ensures fields { IfOk result (AreFields L.meaning) }
    {
        let cells = setup.opening.copy()?;
        let places = setup.places(alloc)?;
        let live = setup.items.len() as u32;
        let reads = classes_read(alloc, &*setup.library, &setup.program)?;
        Ok(Fields {
            alloc,
            setup,
            places,
            table: Table::new(alloc),
            cells,
            live,
            reads,
            made: Made::new(),
        })
    }
}
