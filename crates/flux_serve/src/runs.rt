//! The run of a batch's items.

ghost use Rattle.std.specs.Prelude.{◌≡◌, ◌≤◌, length, IfOk};
ghost use Rattle.std.specs.List.{AllByRecursion};
ghost use Rattle.std.specs.Arc.{arc_value};
ghost use Rattle.flow_model.specs.CellsAfter.{cells_after};
ghost use Rattle.flow_model.specs.Legal.{IsLegal, IsWhole};
ghost use Rattle.flux_cells.specs.Kept.{cells_of};
ghost use Rattle.flux_batches.specs.Links.{IsLinkItem};
ghost use Rattle.flux_serve.specs.Served.{CanServe};
ghost use Rattle.flow_core.specs.States.{opened};
ghost use Rattle.flux_serve.specs.Orders.{IsInOrder};
ghost use Rattle.flux_serve.specs.Batches.{Service, batch_setup};
ghost use Rattle.flux_serve.specs.Runs.{MayRun, Runs};
ghost use Rattle.flux_serve.specs.steps.Batches.{service_in};

use crate::orders::BatchOrder;
use flow_core::{Core, Gate, Runtime, Setup};
use flow_model::Journal;
use flux_cells::Cells;
use flux_doors::Framing;
use flux_library::Library;
use flux_model::{Item, Program};
use flux_plan::VerifiedPlan;
use flux_values::{List, Memory};
use std::alloc::Global;
use std::marker::Sync;
use std::sync::{Arc, Wait};
use std::thread::Threads;

/// What is served: a program with its plans, its library, how its links are read, and in which order the flows of a batch go on.
#[derive(Drop)]
pub struct Served<L: Library> {
    pub program: Arc<Program>,
    pub plans: Arc<List<VerifiedPlan>>,
    pub library: Arc<L>,
    pub framing: Framing,
    pub order: BatchOrder,
}

/// The core of a batch, whose flows have done nothing.
pub fn open<L: Library>(
    alloc: Global,
    served: &Served<L>,
    items: List<Item>,
    opening: Cells,
) -> Result<Core<L>, Memory>
    requires can { CanServe (L.meaning (arc_value served.now.library)) (arc_value served.now.program)
        (arc_value served.now.plans) served.now.framing }
    requires items { AllByRecursion IsLinkItem items }
    requires few { length items ≤ 4096 }
    ensures { IfOk result (λ core. core ≡ opened (arc_value served.now.program) (arc_value served.now.plans)
        items opening (arc_value served.now.library)) }
{
    let setup = Setup {
        program: Arc::try_clone(&served.program)?,
        plans: Arc::try_clone(&served.plans)?,
        items,
        opening,
        library: Arc::try_clone(&served.library)?,
    };
    Core::new(alloc, setup)
}

/// Drives a batch's items to their end, from the cells that the batch before left, in an order of the runtime's own.
pub fn run<L: Library, R: Runtime, G: Gate, Rt: Threads + Wait + Sync>(
    rt: &Rt,
    alloc: Global,
    served: &Served<L>,
    runtime: &mut R,
    gate: &G,
    items: List<Item>,
    opening: Cells,
) -> Result<(Journal, Cells), Memory>
    requires can { CanServe (L.meaning (arc_value served.now.library)) (arc_value served.now.program)
        (arc_value served.now.plans) served.now.framing }
    requires any { served.now.order ≡ BatchOrder.Any }
    requires ready { R.ready runtime.old }
    requires items { AllByRecursion IsLinkItem items }
    requires few { length items ≤ 4096 }
    ensures again { R.ready runtime.new }
    ensures legal { let service : Service = (record { program = arc_value served.now.program; framing = served.now.framing; order = served.now.order; meaning = L.meaning (arc_value served.now.library) }) in
        IfOk result (λ run. IsLegal (batch_setup service (cells_of opening) items) run.0.entries) }
    ensures whole { let service : Service = (record { program = arc_value served.now.program; framing = served.now.framing; order = served.now.order; meaning = L.meaning (arc_value served.now.library) }) in
        IfOk result (λ run. IsWhole (batch_setup service (cells_of opening) items) run.0.entries) }
    ensures order { let service : Service = (record { program = arc_value served.now.program; framing = served.now.framing; order = served.now.order; meaning = L.meaning (arc_value served.now.library) }) in
        IfOk result (λ run. IsInOrder served.now.order (batch_setup service (cells_of opening) items) run.0.entries) }
    ensures cells { let service : Service = (record { program = arc_value served.now.program; framing = served.now.framing; order = served.now.order; meaning = L.meaning (arc_value served.now.library) }) in
        IfOk result (λ run. cells_of run.1 ≡ cells_after (batch_setup service (cells_of opening) items) run.0.entries) }
{
    let core = open(alloc, served, items, opening)?;
    match runtime.drive(rt, core, gate) {
        Ok(core) => Ok(core.into_parts()),
        Err(_) => Err(Memory),
    }
}

/// Runs a batch's items by a call.
pub fn run_items<
    L: Library,
    S,
    F: Fn(&mut S, List<Item>, Cells) -> Result<(Journal, Cells), Memory>,
>(
    served: &Served<L>,
    state: &mut S,
    run: &F,
    items: List<Item>,
    opening: Cells,
) -> Result<(Journal, Cells), Memory>
    requires may { MayRun F.Fn run.now state.old }
    requires runs { Runs F.Fn run.now (service_in L.meaning served.now) }
    requires items { AllByRecursion IsLinkItem items }
    requires few { length items ≤ 4096 }
    ensures again { MayRun F.Fn run.now state.new }
    ensures legal { IfOk result (λ run. IsLegal (batch_setup (service_in L.meaning served.now) (cells_of opening) items) run.0.entries) }
    ensures whole { IfOk result (λ run. IsWhole (batch_setup (service_in L.meaning served.now) (cells_of opening) items) run.0.entries) }
    ensures order { IfOk result (λ run. IsInOrder served.now.order (batch_setup (service_in L.meaning served.now) (cells_of opening) items) run.0.entries) }
    ensures cells { IfOk result (λ run. cells_of run.1
        ≡ cells_after (batch_setup (service_in L.meaning served.now) (cells_of opening) items) run.0.entries) }
{
    run(state, items, opening)
}
