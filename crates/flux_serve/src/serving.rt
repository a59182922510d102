//! Batches whose links are answered after each.

ghost use Rattle.std.specs.Prelude.{◌≡◌, ◌+◌, ◌^◌, ◌<◌, ◌≤◌, length, IfOk, IfErr};
ghost use Rattle.std.specs.List.{AllByRecursion};
ghost use Rattle.std.specs.Arc.{arc_value};
ghost use Rattle.flux_cells.specs.Kept.{cells_of};
ghost use Rattle.flux_outside.specs.Streams.{Stream};
ghost use Rattle.flux_doors.specs.Seen.{IsLater};
ghost use Rattle.flux_batches.specs.Links.{IsLinkItem};
ghost use Rattle.flux_serve.specs.Served.{CanServe};
ghost use Rattle.flux_serve.specs.Batches.{Service};
ghost use Rattle.flux_serve.specs.Runs.{IsRun, MayRun, Runs};
ghost use Rattle.flux_serve.specs.Ends.{sight_of, HasServed};
ghost use Rattle.flux_serve.specs.steps.Batches.{service_in, MayServe, HasRun, IsNone};

use crate::batches::{ServeEnd, drive_batch};
use crate::loops::serve_batches;
use crate::orders::BatchOrder;
use crate::runs::{Served, run};
use flow_core::{Gate, Runtime};
use flow_model::Journal;
use flux_cells::Cells;
use flux_doors::Door;
use flux_library::Library;
use flux_model::Item;
use flux_outside::Sink;
use flux_values::{List, Memory};
use std::alloc::Global;
use std::marker::Sync;
use std::sync::Wait;
use std::thread::Threads;

/// Serves so many batches of a door's links, each run by a call, until the door is closed or something fails. Each batch is run
/// from the cells that the one before left, answered, and then written on the log.
///
/// `serve` hands in a runtime's `drive`. What starts threads can't be met as a runtime, but may be handed in here.
pub fn serve_by<
    L: Library,
    D: Door,
    O: Sink,
    S,
    F: Fn(&mut S, List<Item>, Cells) -> Result<(Journal, Cells), Memory>,
    Rt: Threads + Sync,
>(
    rt: &Rt,
    alloc: Global,
    served: &Served<L>,
    door: &mut D,
    log: &mut O,
    state: &mut S,
    run: &F,
    batches: u32,
) -> ServeEnd
    requires may { MayRun F.Fn run.now state.old }
    requires runs { Runs F.Fn run.now (service_in L.meaning served.now) }
    requires out { D.out door.old ≡ 0 }
    ensures again { MayRun F.Fn run.now state.new }
    // Each accepted link has gone back to the door.
    ensures out { D.out door.new ≡ 0 }
    ensures open { (D.seen door.new).open_at ≡ (D.seen door.old).open_at }
    ensures later { IsLater (D.seen door.old) (D.seen door.new) }
    ensures later_log { (O.seen log.old).faults ≤ (O.seen log.new).faults }
    ensures served { let service : Service = (record { program = arc_value served.now.program; framing = served.now.framing; order = served.now.order; meaning = L.meaning (arc_value served.now.library) }) in
        HasServed D.Link.seen service batches
        (sight_of (D.seen door.old) (O.seen log.old)) (sight_of (D.seen door.new) (O.seen log.new)) result }
{
    serve_batches(
        alloc,
        served,
        door,
        log,
        state,
        &|state: &mut S, door: &mut D, opening: Cells, number: u64|
            requires may { MayRun F.Fn run.now state.old }
            requires runs { Runs F.Fn run.now (service_in L.meaning served.now) }
            requires out { D.out door.old ≡ 0 }
            requires numbers { number + 64 < 2 ^ 63 }
            ensures again { MayRun F.Fn run.entry.now state.new }
            ensures out { D.out door.new ≡ 0 }
            ensures open { (D.seen door.new).open_at ≡ (D.seen door.old).open_at }
            ensures later { IsLater (D.seen door.old) (D.seen door.new) }
            ensures bound { IfOk result (λ run. run.next ≤ number + 64) }
            ensures ran { (log : Stream) → IfOk result (HasRun D.Link.seen (service_in L.meaning served.entry.now) (cells_of opening) number
                (sight_of (D.seen door.old) log) (sight_of (D.seen door.new) log)) }
            ensures none { (log : Stream) → IfErr result (IsNone D.Link.seen served.entry.now.framing
                (sight_of (D.seen door.old) log) (sight_of (D.seen door.new) log)) }
        { drive_batch(rt, alloc, served, door, state, run, opening, number) },
        batches,
    )
}

/// Serves so many batches of a door's links, each driven by a runtime, until the door is closed or something fails. Each batch is
/// driven from the cells that the one before left, answered, and then written on the log.
pub fn serve<L: Library, D: Door, O: Sink, R: Runtime, G: Gate, Rt: Threads + Wait + Sync>(
    rt: &Rt,
    alloc: Global,
    served: &Served<L>,
    door: &mut D,
    log: &mut O,
    runtime: &mut R,
    gate: &G,
    batches: u32,
) -> ServeEnd
    requires can { CanServe (L.meaning (arc_value served.now.library)) (arc_value served.now.program)
        (arc_value served.now.plans) served.now.framing }
    // No runtime promises an order.
    requires any { served.now.order ≡ BatchOrder.Any }
    requires ready { R.ready runtime.old }
    requires out { D.out door.old ≡ 0 }
    ensures again { R.ready runtime.new }
    // Each accepted link has gone back to the door.
    ensures out { D.out door.new ≡ 0 }
    ensures open { (D.seen door.new).open_at ≡ (D.seen door.old).open_at }
    ensures later { IsLater (D.seen door.old) (D.seen door.new) }
    ensures later_log { (O.seen log.old).faults ≤ (O.seen log.new).faults }
    ensures served { let service : Service = (record { program = arc_value served.now.program; framing = served.now.framing; order = served.now.order; meaning = L.meaning (arc_value served.now.library) }) in
        HasServed D.Link.seen service batches
        (sight_of (D.seen door.old) (O.seen log.old)) (sight_of (D.seen door.new) (O.seen log.new)) result }
{
    serve_by(
        rt,
        alloc,
        served,
        door,
        log,
        runtime,
        &|runtime: &mut R, items: List<Item>, opening: Cells|
            requires ready { R.ready runtime.old }
            requires can { MayServe L.meaning served.now }
            requires any { served.now.order ≡ BatchOrder.Any }
            requires items { AllByRecursion IsLinkItem items }
            requires few { length items ≤ 4096 }
            ensures again { R.ready runtime.new }
            ensures run { IfOk result (IsRun (service_in L.meaning served.entry.now) opening items) }
        { run(rt, alloc, served, runtime, gate, items, opening) },
        batches,
    )
}
