//! One batch: taken, run, answered and logged.

ghost use Rattle.std.specs.Prelude.{◌≡◌, ◌+◌, ◌^◌, ◌<◌, ◌≤◌, IfOk, IfErr, OnOk, OnErr};
ghost use Rattle.std.specs.VecDeque.{deque_len};
ghost use Rattle.flow_model.specs.CellsAfter.{cells_after};
ghost use Rattle.flow_model.specs.Legal.{IsLegal, IsWhole};
ghost use Rattle.flux_cells.specs.Kept.{cells_of};
ghost use Rattle.flux_outside.specs.Streams.{Stream, Wrote};
ghost use Rattle.flux_doors.specs.Seen.{IsLater};
ghost use Rattle.flux_journal.specs.Logs.{printed_batch};
ghost use Rattle.flux_batches.specs.Links.{AreRead, items_from};
ghost use Rattle.flux_serve.specs.Orders.{IsInOrder};
ghost use Rattle.flux_serve.specs.Batches.{batch_setup};
ghost use Rattle.flux_serve.specs.Runs.{MayRun, Runs};
ghost use Rattle.flux_serve.specs.Ends.{sight_of};
ghost use Rattle.flux_serve.specs.steps.Batches.{service_in, IsTaken, IsNone, HasFinished, HasRun};

use crate::runs::{Served, run_items};
use flow_model::Journal;
use flux_batches::{
    NoBatch, ReadLink, answer_links, gather, give_back, give_back_read, items_of, read_links,
};
use flux_cells::Cells;
use flux_doors::{Door, Framing};
use flux_journal::print_batch;
use flux_library::Library;
use flux_model::{Item, Program};
use flux_outside::{Sink, write_all};
use flux_values::{List, Memory};
use std::alloc::Global;
use std::collections::VecDeque;
use std::marker::Sync;
use std::thread::Threads;

/// How serving ended.
#[derive(Clone, Copy, PartialEq, Eq)]
pub enum ServeEnd {
    /// The door is closed.
    Closed,
    /// As many batches were served as were wanted.
    Counted,
    /// The door failed.
    Door,
    /// The log failed.
    Log,
    Memory,
}

/// What a batch ended with: its items, its journal, the cells at its end, and the number of the link after its links.
#[derive(Drop)]
pub struct Run {
    pub items: List<Item>,
    pub journal: Journal,
    pub cells: Cells,
    pub next: u64,
}

/// Takes the links of the next batch, and reads them side by side.
pub fn take<D: Door, Rt: Threads + Sync>(
    rt: &Rt,
    alloc: Global,
    door: &mut D,
    framing: Framing,
) -> Result<VecDeque<ReadLink<D::Link>>, ServeEnd>
    requires { D.out door.old ≡ 0 }
    ensures taken { IfOk result (λ requests. IsTaken D.Link.seen framing (D.seen door.old).to_come (D.seen door.new).to_come (D.seen door.old).late (D.seen door.new).late requests.items) }
    ensures out { IfOk result (λ requests. (D.out door.new ≡ deque_len requests) × (deque_len requests ≤ 64)) }
    ensures some { IfOk result (λ requests. 0 < deque_len requests) }
    ensures back { OnOk result ((D.seen door.new).taken_back ≡ (D.seen door.old).taken_back) }
    ensures open { (D.seen door.new).open_at ≡ (D.seen door.old).open_at }
    ensures steady { OnOk result ((D.seen door.new).faults ≡ (D.seen door.old).faults) }
    ensures none_out { OnErr result (D.out door.new ≡ 0) }
    ensures later { IsLater (D.seen door.old) (D.seen door.new) }
    ensures none { (log : Stream) → IfErr result (IsNone D.Link.seen framing
        (sight_of (D.seen door.old) log) (sight_of (D.seen door.new) log)) }
{
    let links = match gather(alloc, door) {
        Ok(links) => links,
        Err(NoBatch::Closed) => return Err(ServeEnd::Closed),
        Err(NoBatch::Door) => return Err(ServeEnd::Door),
        Err(NoBatch::Memory) => return Err(ServeEnd::Memory),
    };
    match read_links(rt, alloc, links, framing) {
        Ok(requests) => Ok(requests),
        Err(links) => {
            give_back(door, links);
            Err(ServeEnd::Memory)
        }
    }
}

/// Runs the items of links from the cells that the batch before left.
fn run_links<
    K,
    L: Library,
    S,
    F: Fn(&mut S, List<Item>, Cells) -> Result<(Journal, Cells), Memory>,
>(
    alloc: Global,
    served: &Served<L>,
    state: &mut S,
    run: &F,
    links: &VecDeque<ReadLink<K>>,
    number: u64,
    opening: Cells,
) -> Result<Run, Memory>
    requires may { MayRun F.Fn run.now state.old }
    requires runs { Runs F.Fn run.now (service_in L.meaning served.now) }
    requires few { deque_len links.now ≤ 64 }
    requires numbers { number + 64 < 2 ^ 63 }
    ensures again { MayRun F.Fn run.now state.new }
    ensures items { IfOk result (λ run. run.items ≡ items_from number links.now.items) }
    ensures next { IfOk result (λ run. run.next ≡ number + deque_len links.now) }
    ensures read { OnOk result (AreRead links.now.items) }
    ensures legal { IfOk result (λ run. let journal = run.journal in
        IsLegal (batch_setup (service_in L.meaning served.now) (cells_of opening) run.items) journal.entries) }
    ensures whole { IfOk result (λ run. let journal = run.journal in
        IsWhole (batch_setup (service_in L.meaning served.now) (cells_of opening) run.items) journal.entries) }
    ensures order { IfOk result (λ run. let journal = run.journal in IsInOrder served.now.order
        (batch_setup (service_in L.meaning served.now) (cells_of opening) run.items) journal.entries) }
    ensures cells { IfOk result (λ run. let journal = run.journal in cells_of run.cells
        ≡ cells_after (batch_setup (service_in L.meaning served.now) (cells_of opening) run.items) journal.entries) }
{
    let items = items_of(alloc, links, number)?;
    let kept = items_of(alloc, links, number)?;
    let next = number + links.len() as u64;
    let (journal, cells) = run_items(served, state, run, items, opening)?;
    Ok(Run {
        items: kept,
        journal,
        cells,
        next,
    })
}

/// Runs the next batch to its end, and answers its links.
pub fn drive_batch<
    L: Library,
    D: Door,
    S,
    F: Fn(&mut S, List<Item>, Cells) -> Result<(Journal, Cells), Memory>,
    Rt: Threads + Sync,
>(
    rt: &Rt,
    alloc: Global,
    served: &Served<L>,
    door: &mut D,
    state: &mut S,
    run: &F,
    opening: Cells,
    number: u64,
) -> Result<Run, ServeEnd>
    requires may { MayRun F.Fn run.now state.old }
    requires runs { Runs F.Fn run.now (service_in L.meaning served.now) }
    requires out { D.out door.old ≡ 0 }
    requires numbers { number + 64 < 2 ^ 63 }
    ensures again { MayRun F.Fn run.now state.new }
    ensures out { D.out door.new ≡ 0 }
    ensures open { (D.seen door.new).open_at ≡ (D.seen door.old).open_at }
    ensures later { IsLater (D.seen door.old) (D.seen door.new) }
    ensures bound { IfOk result (λ run. run.next ≤ number + 64) }
    ensures ran { (log : Stream) → IfOk result (HasRun D.Link.seen (service_in L.meaning served.now) (cells_of opening) number
        (sight_of (D.seen door.old) log) (sight_of (D.seen door.new) log)) }
    ensures none { (log : Stream) → IfErr result (IsNone D.Link.seen served.now.framing
        (sight_of (D.seen door.old) log) (sight_of (D.seen door.new) log)) }
{
    let links = match take(rt, alloc, door, served.framing) {
        Ok(links) => links,
        Err(end) => return Err(end),
    };
    match run_links(alloc, served, state, run, &links, number, opening) {
        Ok(run) => {
            answer_links(rt, door, links, run.journal.entries.as_slice());
            Ok(run)
        }
        Err(_) => {
            give_back_read(door, links);
            Err(ServeEnd::Memory)
        }
    }
}

/// Writes the text of a batch.
fn write_batch<O: Sink>(
    alloc: Global,
    program: &Program,
    log: &mut O,
    count: u32,
    run: &Run,
) -> Result<(), ServeEnd>
    ensures later { (O.seen log.old).faults ≤ (O.seen log.new).faults }
    ensures wrote { OnOk result (Wrote
        (O.seen log.old)
        (O.seen log.new)
        (printed_batch program.now count run.now.items run.now.journal)) }
    ensures ends { IfErr result (λ end. HasFinished end
        (O.seen log.old)
        (O.seen log.new)
        (printed_batch program.now count run.now.items run.now.journal)) }
{
    match print_batch(alloc, program, count, run.items.as_slice(), &run.journal) {
        Ok(text) => match write_all(log, text.as_bytes()) {
            Ok(()) => Ok(()),
            Err(_) => Err(ServeEnd::Log),
        },
        Err(_) => Err(ServeEnd::Memory),
    }
}

/// The same: gives what the next batch begins with, the cells at its end and the number of the link after its links.
pub fn log_batch<O: Sink>(
    alloc: Global,
    program: &Program,
    log: &mut O,
    count: u32,
    run: Run,
) -> Result<(Cells, u64), ServeEnd>
    ensures later { (O.seen log.old).faults ≤ (O.seen log.new).faults }
    ensures left { IfOk result (λ next. (next.0 ≡ run.cells) × (next.1 ≡ run.next)) }
    ensures wrote { OnOk result (Wrote
        (O.seen log.old)
        (O.seen log.new)
        (printed_batch program.now count run.items run.journal)) }
    ensures ends { IfErr result (λ end. HasFinished end
        (O.seen log.old)
        (O.seen log.new)
        (printed_batch program.now count run.items run.journal)) }
{
    match write_batch(alloc, program, log, count, &run) {
        Ok(()) => Ok((run.cells, run.next)),
        Err(end) => Err(end),
    }
}
