//! What simulates processors for a command.

ghost use Rattle.std.specs.Prelude.{IfOk};
ghost use Rattle.std.specs.Arc.{arc_value};
ghost use Rattle.flux_laws.specs.Hoisted.{locks_of};
ghost use Rattle.flux_runs.specs.Setups.{setup_of};
ghost use Rattle.flux_runs.specs.Opening.{CanRun, AreSmall};
ghost use Rattle.flux_runs.specs.Simulations.{IsSimulationText};

use flux_cli::{Costs, Processors};
use flux_hoist::Checked;
use flux_library::Library;
use flux_model::Item;
use flux_values::{Bytes, List, Memory};
use std::alloc::Global;
use std::sync::Arc;

/// Lets the flows of items run on simulated processors.
pub trait Simulator {
    /// What is printed of the items' flows on so many processors, where the calls of the first nodes cost so much.
    fn simulate<L: Library>(
        &self,
        alloc: Global,
        library: Arc<L>,
        checked: Checked,
        items: List<Item>,
        processors: Processors,
        given: &Costs,
    ) -> Result<Bytes, Memory>
        requires can { CanRun (L.meaning (arc_value library)) checked.program items }
        requires small { AreSmall (L.meaning (arc_value library)) checked.program items }
        ensures { IfOk result (IsSimulationText
            (setup_of checked.program (locks_of checked.program) items (L.meaning (arc_value library)))
            given.now.list processors.count) };
}
