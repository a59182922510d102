//! Batches whose links are answered at once.

ghost use Rattle.std.specs.Prelude.{◌≡◌, ◌+◌, ◌^◌, ◌<◌, ◌≤◌, IfOk, IfErr};
ghost use Rattle.std.specs.Arc.{arc_value};
ghost use Rattle.flux_cells.specs.Kept.{cells_of};
ghost use Rattle.flux_outside.specs.Streams.{Stream};
ghost use Rattle.flux_doors.specs.Seen.{IsLater};
ghost use Rattle.flux_serve.specs.Served.{CanServe};
ghost use Rattle.flux_serve.specs.Batches.{Service};
ghost use Rattle.flux_serve.specs.AtOnce.{HasServedAtOnce};
ghost use Rattle.flux_serve.specs.Ends.{sight_of};
ghost use Rattle.flux_serve.specs.steps.Batches.{service_in, MayServe, HasRun, IsNoneAtOnce};

use crate::batches::ServeEnd;
use crate::batches_at_once::drive_batch_at_once;
use crate::loops::serve_batches;
use crate::orders::BatchOrder;
use crate::runs::Served;
use flow_core::Gate;
use flux_cells::Cells;
use flux_doors::Door;
use flux_library::Library;
use flux_outside::Sink;
use std::alloc::Global;
use std::marker::{Send, Sync};
use std::sync::Wait;
use std::thread::Threads;

/// Serves as `serve` does, by so many workers, from 1 to 16, each in a thread of its own where one can be made. Worker i has
/// the flows whose number modulo the number of workers is i. It steps these, runs their calls, and writes a flow's reply as
/// soon as the flow has its `end`, while other flows of the batch still run. Where memory runs out in a batch, it may have
/// answered some of its links.
pub fn serve_at_once<
    L: Library + Send + Sync,
    D: Door,
    O: Sink,
    G: Gate + Sync,
    Rt: Threads + Wait + Sync,
>(
    rt: &Rt,
    alloc: Global,
    served: &Served<L>,
    door: &mut D,
    log: &mut O,
    workers: u8,
    gate: &G,
    batches: u32,
) -> ServeEnd
    requires can { CanServe (L.meaning (arc_value served.now.library)) (arc_value served.now.program)
        (arc_value served.now.plans) served.now.framing }
    // Workers keep no order.
    requires any { served.now.order ≡ BatchOrder.Any }
    requires some { 0 < workers }
    requires few { workers ≤ 16 }
    requires out { D.out door.old ≡ 0 }
    // Each accepted link has gone back to the door.
    ensures out { D.out door.new ≡ 0 }
    ensures open { (D.seen door.new).open_at ≡ (D.seen door.old).open_at }
    ensures later { IsLater (D.seen door.old) (D.seen door.new) }
    ensures later_log { (O.seen log.old).faults ≤ (O.seen log.new).faults }
    ensures served { let service : Service = (record { program = arc_value served.now.program; framing = served.now.framing; order = served.now.order; meaning = L.meaning (arc_value served.now.library) }) in
        HasServedAtOnce D.Link.seen service batches
        (sight_of (D.seen door.old) (O.seen log.old)) (sight_of (D.seen door.new) (O.seen log.new)) result }
{
    let mut workers = workers;
    serve_batches(
        alloc,
        served,
        door,
        log,
        &mut workers,
        &|workers: &mut u8, door: &mut D, opening: Cells, number: u64|
            requires can { MayServe L.meaning served.now }
            requires any { served.now.order ≡ BatchOrder.Any }
            requires some { 0 < workers.old }
            requires out { D.out door.old ≡ 0 }
            requires numbers { number + 64 < 2 ^ 63 }
            ensures again { 0 < workers.new }
            ensures out { D.out door.new ≡ 0 }
            ensures open { (D.seen door.new).open_at ≡ (D.seen door.old).open_at }
            ensures later { IsLater (D.seen door.old) (D.seen door.new) }
            ensures bound { IfOk result (λ run. run.next ≤ number + 64) }
            ensures ran { (log : Stream) → IfOk result (HasRun D.Link.seen (service_in L.meaning served.entry.now) (cells_of opening) number
                (sight_of (D.seen door.old) log) (sight_of (D.seen door.new) log)) }
            ensures none { (log : Stream) → IfErr result (IsNoneAtOnce D.Link.seen (service_in L.meaning served.entry.now) (cells_of opening) number
                (sight_of (D.seen door.old) log) (sight_of (D.seen door.new) log)) }
        { drive_batch_at_once(rt, alloc, served, door, *workers, gate, opening, number) },
        batches,
    )
}
