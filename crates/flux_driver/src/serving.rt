//! Serving a checked program: its plans, its door, and batch after batch.

ghost use Rattle.std.specs.Prelude.{◌≡◌, ◌<◌, ◌≤◌, length, IfOk};
ghost use Rattle.std.specs.List.{AllByRecursion};
ghost use Rattle.std.specs.Arc.{arc_value};
ghost use Rattle.flux_model.specs.Kinds.{kinds_at};
ghost use Rattle.flux_model.specs.Soundness.{IsSound};
ghost use Rattle.flux_doors.specs.Seen.{IsLater};
ghost use Rattle.flux_batches.specs.Links.{IsLinkItem};
ghost use Rattle.flux_serve.specs.Served.{CanServe};
ghost use Rattle.flux_sources.specs.Sources.{IsServed};
ghost use Rattle.flux_serve.specs.Batches as batches;
ghost use Rattle.flux_serve.specs.Ends.{sight_of};
ghost use Rattle.flux_serve.specs.Orders.{IsInOrder};
ghost use Rattle.flux_serve.specs.Runs.{IsRun};
ghost use Rattle.flow_model.specs.CellsAfter.{cells_after};
ghost use Rattle.flow_model.specs.Legal.{IsLegal, IsWhole};
ghost use Rattle.flux_cells.specs.Kept.{cells_of};
ghost use Rattle.flux_driver.specs.Serving.{IsOpened, HasServedBy, order_of};
ghost use Rattle.flux_driver.specs.steps.Orders.{KeepsOrder};

use flow_core::Gate;
use flow_model::Journal;
use flux_cells::Cells;
use flux_cli::{Replying, Runtime};
use flux_commands::{Ready, Service};
use flux_compile::compile;
use flux_doors::{Door, Framing};
use flux_hoist::Checked;
use flux_library::Library;
use flux_model::{FlowNo, Item, Program};
use flux_outside::Sink;
use flux_plan::VerifiedPlan;
use flux_serve::{BatchOrder, ServeEnd, Served, open, serve_at_once, serve_by};
use flux_values::{List, Memory};
use rt_all::AnyRuntime;
use std::alloc::Global;
use std::marker::{Send, Sync};
use std::sync::{Arc, Wait};
use std::thread::Threads;

/// A program with its plans, to be served.
fn assemble<L: Library>(
    alloc: Global,
    library: Arc<L>,
    program: Program,
    plans: List<VerifiedPlan>,
    framing: Framing,
    order: BatchOrder,
) -> Result<Served<L>, Memory>
    requires { CanServe (L.meaning (arc_value library)) program plans framing }
    ensures can { IfOk result (λ served. CanServe (L.meaning (arc_value served.library)) (arc_value served.program)
        (arc_value served.plans) served.framing) }
    ensures program { IfOk result (λ served. arc_value served.program ≡ program) }
    ensures library { IfOk result (λ served. arc_value served.library ≡ arc_value library) }
    ensures framing { IfOk result (λ served. served.framing ≡ framing) }
    ensures order { IfOk result (λ served. served.order ≡ order) }
{
    Ok(Served {
        program: Arc::new(alloc, program)?,
        plans: Arc::new(alloc, plans)?,
        library,
        framing,
        order,
    })
}

/// The numbers of a script once more.
fn copy_numbers(alloc: Global, numbers: &[FlowNo]) -> Result<List<FlowNo>, Memory>
    ensures { IfOk result (λ copies. copies ≡ numbers.now) }
{
    let mut copies = List::new(alloc);
    for number in numbers {
        copies.add(*number)?;
    }
    Ok(copies)
}

/// The order in which the flows of a batch go on, by the words.
fn order_by(alloc: Global, replying: &Replying) -> Result<BatchOrder, Memory>
    ensures { IfOk result (λ order. order ≡ order_of replying.now) }
{
    match replying {
        Replying::AtEnd(Runtime::Event) => Ok(BatchOrder::Round),
        Replying::AtEnd(Runtime::EventWithHelpers(_)) => Ok(BatchOrder::Any),
        Replying::AtEnd(Runtime::Script(numbers)) => {
            Ok(BatchOrder::Listed(copy_numbers(alloc, numbers.as_slice())?))
        }
        Replying::AtEnd(Runtime::PerFlow) => Ok(BatchOrder::Any),
        Replying::AtEnd(Runtime::Pool(_)) => Ok(BatchOrder::Any),
        Replying::AtOnce(_) => Ok(BatchOrder::Any),
    }
}

/// The runtime that the words name, which keeps the order that is served.
fn runtime_in(words: Runtime, order: &BatchOrder) -> AnyRuntime
    requires { order.now ≡ order_of (Replying.AtEnd words) }
    ensures { KeepsOrder result order.now }
{
    AnyRuntime::by(words)
}

/// A checked program with its plans, whose batches go on in the order of the words.
fn plan_all<L: Library>(
    alloc: Global,
    library: Arc<L>,
    checked: Checked,
    framing: Framing,
    replying: &Replying,
) -> Result<Served<L>, Memory>
    requires sound { IsSound (L.meaning (arc_value library)) checked.program (kinds_at checked.sigs.nodes) }
    requires source { IsServed (L.meaning (arc_value library)) checked.program framing }
    ensures can { IfOk result (λ served. CanServe (L.meaning (arc_value served.library)) (arc_value served.program)
        (arc_value served.plans) served.framing) }
    ensures program { IfOk result (λ served. arc_value served.program ≡ checked.program) }
    ensures library { IfOk result (λ served. arc_value served.library ≡ arc_value library) }
    ensures framing { IfOk result (λ served. served.framing ≡ framing) }
    ensures order { IfOk result (λ served. served.order ≡ order_of replying.now) }
{
    let order = order_by(alloc, replying)?;
    let plans = compile(alloc, &checked)?;
    assemble(alloc, library, checked.program, plans, framing, order)
}

/// Runs the items of a batch from the cells that the one before left, by threads where the runtime starts some, and in the order
/// that is served.
fn run_by_threads<L: Library + Send + Sync, G: Gate + Sync, Rt: Threads + Wait + Sync>(
    rt: &Rt,
    alloc: Global,
    served: &Served<L>,
    runtime: &mut AnyRuntime,
    gate: &G,
    items: List<Item>,
    opening: Cells,
) -> Result<(Journal, Cells), Memory>
    requires can { CanServe (L.meaning (arc_value served.now.library)) (arc_value served.now.program)
        (arc_value served.now.plans) served.now.framing }
    requires keeps { KeepsOrder runtime.old served.now.order }
    requires items { AllByRecursion IsLinkItem items }
    requires few { length items ≤ 4096 }
    ensures keeps { KeepsOrder runtime.new served.now.order }
    ensures legal { let own : batches.Service = (record { program = arc_value served.now.program; framing = served.now.framing; order = served.now.order; meaning = L.meaning (arc_value served.now.library) }) in
        IfOk result (λ run. IsLegal (batches.batch_setup own (cells_of opening) items) run.0.entries) }
    ensures whole { let own : batches.Service = (record { program = arc_value served.now.program; framing = served.now.framing; order = served.now.order; meaning = L.meaning (arc_value served.now.library) }) in
        IfOk result (λ run. IsWhole (batches.batch_setup own (cells_of opening) items) run.0.entries) }
    ensures order { let own : batches.Service = (record { program = arc_value served.now.program; framing = served.now.framing; order = served.now.order; meaning = L.meaning (arc_value served.now.library) }) in
        IfOk result (λ run. IsInOrder served.now.order (batches.batch_setup own (cells_of opening) items) run.0.entries) }
    ensures cells { let own : batches.Service = (record { program = arc_value served.now.program; framing = served.now.framing; order = served.now.order; meaning = L.meaning (arc_value served.now.library) }) in
        IfOk result (λ run. cells_of run.1 ≡ cells_after (batches.batch_setup own (cells_of opening) items) run.0.entries) }
{
    let core = open(alloc, served, items, opening)?;
    match runtime.drive_by_threads(rt, core, gate) {
        Ok(core) => Ok(core.into_parts()),
        Err(_) => Err(Memory),
    }
}

/// Serves so many batches, one after another, with replies when they are wanted.
fn serve_batches<
    L: Library + Send + Sync,
    D: Door,
    O: Sink,
    G: Gate + Sync,
    Rt: Threads + Wait + Sync,
>(
    rt: &Rt,
    alloc: Global,
    served: &Served<L>,
    door: &mut D,
    log: &mut O,
    replying: Replying,
    gate: &G,
    wanted: u32,
) -> ServeEnd
    requires can { CanServe (L.meaning (arc_value served.now.library)) (arc_value served.now.program)
        (arc_value served.now.plans) served.now.framing }
    requires order { served.now.order ≡ order_of replying }
    requires out { D.out door.old ≡ 0 }
    ensures out { D.out door.new ≡ 0 }
    ensures open { (D.seen door.new).open_at ≡ (D.seen door.old).open_at }
    ensures later { IsLater (D.seen door.old) (D.seen door.new) }
    ensures later_log { (O.seen log.old).faults ≤ (O.seen log.new).faults }
    ensures served { let own : batches.Service = (record { program = arc_value served.now.program; framing = served.now.framing; order = served.now.order; meaning = L.meaning (arc_value served.now.library) }) in
        HasServedBy replying D.Link.seen own wanted
        (sight_of (D.seen door.old) (O.seen log.old)) (sight_of (D.seen door.new) (O.seen log.new)) result }
{
    match replying {
        Replying::AtEnd(runtime) => {
            let mut runtime = runtime_in(runtime, &served.order);
            serve_by(
                rt,
                alloc,
                served,
                door,
                log,
                &mut runtime,
                &|runtime: &mut AnyRuntime, items: List<Item>, opening: Cells|
                    requires can { CanServe (L.meaning (arc_value served.now.library)) (arc_value served.now.program)
                        (arc_value served.now.plans) served.now.framing }
                    requires keeps { KeepsOrder runtime.old served.now.order }
                    requires items { AllByRecursion IsLinkItem items }
                    requires few { length items ≤ 4096 }
                    ensures keeps { KeepsOrder runtime.new served.entry.now.order }
                    ensures run { let own : batches.Service = (record { program = arc_value served.entry.now.program; framing = served.entry.now.framing; order = served.entry.now.order; meaning = L.meaning (arc_value served.entry.now.library) }) in
                        IfOk result (IsRun own opening items) }
                { run_by_threads(rt, alloc, served, runtime, gate, items, opening) },
                wanted,
            )
        }
        Replying::AtOnce(workers) => serve_at_once(
            rt,
            alloc,
            served,
            door,
            log,
            workers.count,
            gate,
            wanted,
        ),
    }
}

/// Serves a program that is ready: plans it, opens the door, and serves its batches.
pub fn serve_ready<
    L: Library + Send + Sync,
    D: Door,
    O: Sink,
    G: Gate + Sync,
    Rt: Threads + Wait + Sync,
>(
    rt: &Rt,
    alloc: Global,
    ready: Ready<L>,
    service: Service,
    door: &mut D,
    log: &mut O,
    gate: &G,
) -> ServeEnd
    requires sound { IsSound (L.meaning (arc_value ready.library)) ready.checked.program (kinds_at ready.checked.sigs.nodes) }
    requires source { IsServed (L.meaning (arc_value ready.library)) ready.checked.program ready.framing }
    requires some { 0 < service.batches }
    requires out { D.out door.old ≡ 0 }
    // Each accepted link has gone back to the door.
    ensures out { D.out door.new ≡ 0 }
    ensures opened { IsOpened result service.entry.port (D.seen door.old).open_at (D.seen door.new).open_at
        (sight_of (D.seen door.old) (O.seen log.old)) (sight_of (D.seen door.new) (O.seen log.new)) }
    ensures later { IsLater (D.seen door.old) (D.seen door.new) }
    ensures later_log { (O.seen log.old).faults ≤ (O.seen log.new).faults }
    ensures served { let own : batches.Service = (record { program = ready.checked.program; framing = ready.framing; order = order_of service.entry.replying; meaning = L.meaning (arc_value ready.library) }) in
        HasServedBy service.entry.replying D.Link.seen own service.entry.batches
        (sight_of (D.seen door.old) (O.seen log.old)) (sight_of (D.seen door.new) (O.seen log.new)) result }
{
    let Ready {
        library,
        checked,
        framing,
    } = ready;
    let served = match plan_all(alloc, library, checked, framing, &service.replying) {
        Ok(served) => served,
        Err(_) => return ServeEnd::Memory,
    };
    door.expect(framing);
    match door.open(service.port) {
        Ok(()) => {}
        Err(_) => return ServeEnd::Door,
    }
    serve_batches(
        rt,
        alloc,
        &served,
        door,
        log,
        service.replying,
        gate,
        service.batches,
    )
}
