//! One batch, whose links are answered while its flows run.

ghost use Rattle.std.specs.Prelude.{◌≡◌, ℕ, ◌+◌, ◌^◌, ◌<◌, ◌≤◌, true, false, All, List, [], length, vec_len, IfOk, IfErr, OnOk};
ghost use Rattle.std.specs.Arc.{arc_value};
ghost use Rattle.std.specs.VecDeque.{deque_len};
ghost use Rattle.flow_model.specs.CellsAfter.{cells_after};
ghost use Rattle.flow_model.specs.Legal.{IsLegal, IsWhole};
ghost use Rattle.flux_cells.specs.Kept.{cells_of};
ghost use Rattle.flux_outside.specs.Streams.{Stream};
ghost use Rattle.flux_doors.specs.Seen.{IsLater, TakesBack, KeepsElse};
ghost use Rattle.flow_core.specs.States.{opened, setup_in};
ghost use Rattle.flux_batches.specs.Links.{AreRead, items_from};
ghost use Rattle.flux_serve.specs.Ends.{sight_of};
ghost use Rattle.flux_serve.specs.steps.Batches.{service_in, MayServe, HasRun, IsNoneAtOnce};
ghost use Rattle.flux_serve.specs.steps.PendingReplies.{IsEmptyQueue, AreBack};

use crate::batches::{Run, ServeEnd, take};
use crate::orders::BatchOrder;
use crate::queues::{WorkerQueue, deal, empty_queues, give_back_links};
use crate::runs::{Served, open};
use crate::workers::drive;
use flow_core::{Core, Gate, none_live_is_whole};
use flow_model::Journal;
use flow_shared::SharedSeat;
use flux_batches::{LINK_LIMIT, ReadLink, give_back_read, items_of};
use flux_cells::Cells;
use flux_doors::Door;
use flux_library::Library;
use flux_model::Item;
use flux_values::{List, Memory};
use std::alloc::Global;
use std::collections::VecDeque;
use std::marker::{Send, Sync};
use std::snapshot::Snapshot;
use std::sync::Wait;
use std::thread::Threads;

/// The core of links' items, from the cells that the batch before left, beside those items.
fn begin<K, L: Library>(
    alloc: Global,
    served: &Served<L>,
    links: &VecDeque<ReadLink<K>>,
    number: u64,
    opening: Cells,
) -> Result<(Core<L>, List<Item>), Memory>
    requires can { MayServe L.meaning served.now }
    requires few { deque_len links.now ≤ 64 }
    requires numbers { number + 64 < 2 ^ 63 }
    ensures core { IfOk result (λ begun. begun.0 ≡ opened (arc_value served.now.program)
        (arc_value served.now.plans) begun.1 opening (arc_value served.now.library)) }
    ensures items { IfOk result (λ begun. begun.1 ≡ items_from number links.now.items) }
    ensures read { OnOk result (AreRead links.now.items) }
{
    let items = items_of(alloc, links, number)?;
    let kept = items_of(alloc, links, number)?;
    let core = open(alloc, served, items, opening)?;
    Ok((core, kept))
}

/// What a batch's run needs: the core of its items, those items, and a queue for each worker.
fn prepare<K: Drop, L: Library>(
    alloc: Global,
    served: &Served<L>,
    links: &VecDeque<ReadLink<K>>,
    number: u64,
    opening: Cells,
    workers: u8,
) -> Result<(Core<L>, List<Item>, Vec<WorkerQueue<SharedSeat<L>, K>>), Memory>
    requires can { MayServe L.meaning served.now }
    requires few { deque_len links.now ≤ 64 }
    requires numbers { number + 64 < 2 ^ 63 }
    ensures core { IfOk result (λ all. all.0 ≡ opened (arc_value served.now.program)
        (arc_value served.now.plans) all.1 opening (arc_value served.now.library)) }
    ensures items { IfOk result (λ all. all.1 ≡ items_from number links.now.items) }
    ensures read { OnOk result (AreRead links.now.items) }
    ensures count { IfOk result (λ all. vec_len all.2 ≡ workers) }
    ensures empty { IfOk result (λ all. All (IsEmptyQueue (deque_len links.now)) all.2.items) }
{
    let (core, items) = begin(alloc, served, links, number, opening)?;
    let queues = empty_queues(alloc, workers, links.len())?;
    Ok((core, items, queues))
}

/// Drives a batch by its workers, answers its links, and gives them back. Says whether it was driven whole.
fn run_queues<L: Library + Send + Sync, D: Door, G: Gate + Sync, Rt: Threads + Wait + Sync>(
    rt: &Rt,
    alloc: Global,
    core: Core<L>,
    queues: &mut [WorkerQueue<SharedSeat<L>, D::Link>],
    links: VecDeque<ReadLink<D::Link>>,
    door: &mut D,
    gate: &G,
) -> (Journal, Cells, bool)
    requires some { 0 < length queues.old }
    requires empty { All (IsEmptyQueue (deque_len links)) queues.old }
    requires few { deque_len links ≤ LINK_LIMIT }
    requires out { D.out door.old ≡ deque_len links }
    ensures out { D.out door.new ≡ 0 }
    ensures legal { IsLegal (setup_in L.meaning core) result.0.entries }
    ensures whole { result.2 ≡ true → IsWhole (setup_in L.meaning core) result.0.entries }
    ensures broken { result.2 ≡ false → IsWhole (setup_in L.meaning core) result.0.entries → ⊥ }
    ensures cells { cells_of result.1 ≡ cells_after (setup_in L.meaning core) result.0.entries }
    ensures back { (backs : List D.Link) × (next : ℕ) × TakesBack (D.seen door.old).taken_back (D.seen door.new).taken_back backs
        × AreBack D.Link.seen result.2 result.0.entries 0
        links.items backs [] next }
    ensures kept { KeepsElse (D.seen door.old) (D.seen door.new) }
{
    let came = Snapshot::of(&links);
    let count = links.len();
    deal(queues, links);
    let core = drive(rt, alloc, core, queues, gate);
    none_live_is_whole::<L>();
    let whole = core.live() == 0;
    let (journal, cells) = core.into_parts();
    give_back_links(
        door,
        queues,
        &came,
        count,
        journal.entries.as_slice(),
        whole,
    );
    (journal, cells, whole)
}

/// How many workers a batch of some links has: no more than links.
fn worker_count(workers: u8, links: usize) -> u8
    requires some { 0 < workers }
    requires some_links { 0 < links }
    ensures some { 0 < result }
    ensures few { (result ≤ workers) × (result ≤ links) }
{
    if links < workers as usize {
        links as u8
    } else {
        workers
    }
}

/// Drives the next batch by its workers, and answers each link as soon as its flow has its `end`.
pub fn drive_batch_at_once<
    L: Library + Send + Sync,
    D: Door,
    G: Gate + Sync,
    Rt: Threads + Wait + Sync,
>(
    rt: &Rt,
    alloc: Global,
    served: &Served<L>,
    door: &mut D,
    workers: u8,
    gate: &G,
    opening: Cells,
    number: u64,
) -> Result<Run, ServeEnd>
    requires can { MayServe L.meaning served.now }
    requires any { served.now.order ≡ BatchOrder.Any }
    requires some { 0 < workers }
    requires out { D.out door.old ≡ 0 }
    requires numbers { number + 64 < 2 ^ 63 }
    ensures out { D.out door.new ≡ 0 }
    ensures open { (D.seen door.new).open_at ≡ (D.seen door.old).open_at }
    ensures later { IsLater (D.seen door.old) (D.seen door.new) }
    ensures bound { IfOk result (λ run. run.next ≤ number + 64) }
    ensures ran { (log : Stream) → IfOk result (HasRun D.Link.seen (service_in L.meaning served.now) (cells_of opening) number
        (sight_of (D.seen door.old) log) (sight_of (D.seen door.new) log)) }
    ensures none { (log : Stream) → IfErr result (IsNoneAtOnce D.Link.seen (service_in L.meaning served.now) (cells_of opening) number
        (sight_of (D.seen door.old) log) (sight_of (D.seen door.new) log)) }
{
    let links = match take(rt, alloc, door, served.framing) {
        Ok(links) => links,
        Err(end) => return Err(end),
    };
    let workers = worker_count(workers, links.len());
    let (core, items, queues) = match prepare(alloc, served, &links, number, opening, workers) {
        Ok(prepared) => prepared,
        Err(_) => {
            give_back_read(door, links);
            return Err(ServeEnd::Memory);
        }
    };
    let mut queues = queues;
    let next = number + links.len() as u64;
    let (journal, cells, whole) = run_queues(
        rt,
        alloc,
        core,
        queues.as_mut_slice(),
        links,
        door,
        gate,
    );
    let run = Run {
        items,
        journal,
        cells,
        next,
    };
    if whole {
        Ok(run)
    } else {
        Err(ServeEnd::Memory)
    }
}
