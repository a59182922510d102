//! What drives the flows of a command: the thread that calls, or threads; and what simulates processors.

ghost use Rattle.std.specs.Prelude.{◌≡◌, [], IfOk};
ghost use Rattle.std.specs.Arc.{arc_value};
ghost use Rattle.flux_laws.specs.Hoisted.{locks_of};
ghost use Rattle.flux_runs.specs.Setups.{setup_of};
ghost use Rattle.flux_runs.specs.Opening.{CanRun, AreSmall};
ghost use Rattle.flux_runs.specs.Simulations.{IsSimulationText};
ghost use Rattle.flux_commands.specs.Driving.{DrivesTo};

use flow_core::{Core, Gate};
use flux_cli::{Costs, Processors, Runtime};
use flux_commands::Simulator;
use flux_hoist::Checked;
use flux_library::Library;
use flux_model::Item;
use flux_values::{Bytes, List, Memory};
use rt_all::AnyRuntime;
use simulated_items::simulate_items;
use std::alloc::Global;
use std::marker::{Send, Sync};
use std::sync::{Arc, Wait};
use std::thread::Threads;

/// A core without entries, driven to its end on the thread that calls.
pub fn drive_alone<L: Library, G: Gate>(
    core: Core<L>,
    runtime: Runtime,
    gate: &G,
) -> Result<Core<L>, Memory>
    requires { core.entries ≡ [] }
    ensures { IfOk result (DrivesTo L.meaning runtime core) }
{
    match AnyRuntime::by(runtime).drive_alone(core, gate) {
        Ok(core) => Ok(core),
        Err(_) => Err(Memory),
    }
}

/// A core without entries, driven to its end by threads where the runtime starts some.
pub fn drive_by_threads<L: Library + Send + Sync, G: Gate + Sync, Rt: Threads + Wait + Sync>(
    rt: &Rt,
    core: Core<L>,
    runtime: Runtime,
    gate: &G,
) -> Result<Core<L>, Memory>
    requires { core.entries ≡ [] }
    ensures { IfOk result (DrivesTo L.meaning runtime core) }
{
    match AnyRuntime::by(runtime).drive_by_threads(rt, core, gate) {
        Ok(core) => Ok(core),
        Err(_) => Err(Memory),
    }
}

/// Simulates in whole ticks.
#[derive(Clone, Copy)]
pub struct TickByTick;

impl Simulator for TickByTick {
    fn simulate<L: Library>(
        &self,
        alloc: Global,
        library: Arc<L>,
        checked: Checked,
        items: List<Item>,
        processors: Processors,
        given: &Costs,
    ) -> Result<Bytes, Memory>
        requires can { CanRun (L.meaning (arc_value library)) checked.program items }
        requires small { AreSmall (L.meaning (arc_value library)) checked.program items }
        ensures { IfOk result (IsSimulationText
            (setup_of checked.program (locks_of checked.program) items (L.meaning (arc_value library)))
            given.now.list processors.count) }
    {
        simulate_items(alloc, library, checked, items, processors, given)
    }
}
