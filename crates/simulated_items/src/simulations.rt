//! A run on simulated processors, and what is printed of it.

ghost use Rattle.std.specs.Prelude.{◌≡◌, ◌≤◌, ◌<◌, ◌-◌, ◌*◌, IfOk, length};
ghost use Rattle.std.specs.List.{slice_get, AllByRecursion};
ghost use Rattle.std.specs.Option.{unwrap_or};
ghost use Rattle.std.specs.Arc.{arc_value};
ghost use Rattle.flux_laws.specs.Hoisted.{locks_of};
ghost use Rattle.flux_runs.specs.Setups.{setup_of};
ghost use Rattle.flux_runs.specs.Opening.{CanRun, AreSmall};
ghost use Rattle.flux_runs.specs.Simulations.{costs_for, printed_simulation, IsSimulationText};
ghost use Rattle.simulated_items.specs.steps.Work.{work_of, HasRoom};

use flow_orders::Run;
use flux_cli::{Costs, Processors};
use flux_hoist::Checked;
use flux_library::Library;
use flux_model::Item;
use flux_runs::open;
use flux_simulate::simulate;
use flux_spelling::append_number;
use flux_values::{Bytes, List, Memory};
use std::alloc::Global;
use std::sync::Arc;

/// What the calls of a node cost: so much as is given, and 1 where nothing is.
fn cost_of(given: &List<u32>, node: usize) -> u32
    ensures { result ≡ unwrap_or (slice_get given.now node) 1 }
{
    given.get(node).copied().unwrap_or(1)
}

/// What the calls of so many nodes cost.
fn costs_for(alloc: Global, nodes: usize, given: &List<u32>) -> Result<List<u32>, Memory>
    ensures { IfOk result (λ costs. costs ≡ costs_for nodes given.now) }
{
    let mut costs = List::new(alloc);
    for node in 0..nodes {
        costs.add(cost_of(given, node))?;
    }
    Ok(costs)
}

/// How many ticks runs last together.
fn work_of(runs: &[Run]) -> u64
    requires lasting { AllByRecursion (λ run. run.start ≤ run.stop) runs.now }
    requires small { work_of runs.now < 9000000000 }
    ensures { result ≡ work_of runs.now }
{
    let mut work = 0;
    for run in runs {
        work += run.stop - run.start;
    }
    work
}

/// The three lines.
fn print_lines(alloc: Global, ticks: u64, calls: usize, idle: u64) -> Result<Bytes, Memory>
    ensures { IfOk result (λ text. text ≡ printed_simulation ticks calls idle) }
{
    let mut out = Bytes::new(alloc);
    out.append(b"ticks ")?;
    append_number(alloc, &mut out, ticks)?;
    out.append(b"\ncalls ")?;
    append_number(alloc, &mut out, calls as u64)?;
    out.append(b"\nidle ")?;
    append_number(alloc, &mut out, idle)?;
    out.append(b"\n")?;
    Ok(out)
}

/// What is printed of runs that end by a tick.
fn print_runs(alloc: Global, processors: u32, ticks: u64, runs: &List<Run>) -> Result<Bytes, Memory>
    requires { HasRoom processors ticks runs.now }
    ensures { IfOk result (λ text. text
        ≡ printed_simulation ticks (length runs.now) (processors * ticks - work_of runs.now)) }
{
    let idle = u64::from(processors) * ticks - work_of(runs.as_slice());
    print_lines(alloc, ticks, runs.len(), idle)
}

/// What is printed of the items' flows on so many processors, where the calls of the first nodes cost so much.
pub fn simulate_items<L: Library>(
    alloc: Global,
    library: Arc<L>,
    checked: Checked,
    items: List<Item>,
    processors: Processors,
    given: &Costs,
) -> Result<Bytes, Memory>
    requires can { CanRun (L.meaning (arc_value library)) checked.program items }
    requires small { AreSmall (L.meaning (arc_value library)) checked.program items }
    ensures { IfOk result (IsSimulationText
        (setup_of checked.program (locks_of checked.program) items (L.meaning (arc_value library)))
        given.now.list processors.count) }
{
    let costs = costs_for(alloc, checked.program.nodes.len(), &given.list)?;
    let opened = open(alloc, library, checked, items)?;
    match simulate(opened.core, &costs, processors.count) {
        Ok(done) => print_runs(alloc, processors.count, done.ticks, &done.runs),
        Err(_) => Err(Memory),
    }
}
