//! Workers, each of which drives the flows of its queue and writes their replies.

ghost use Rattle.std.specs.Prelude.{◌≡◌, ℕ, ◌<◌, ◌≤◌, length, slice_index_or, true, IfSome};
ghost use Rattle.flow_core.specs.Runs.{GoesOn};
ghost use Rattle.flow_turns.specs.Turns.{IsCallIn};
ghost use Rattle.flow_shared.specs.Journals.{BeginsWith};
ghost use Rattle.flow_shared.specs.States.{SeatState};
ghost use Rattle.flux_serve.specs.steps.PendingReplies.{HasText, IsReplySoFar, AreRepliesSoFar};
ghost use Rattle.flux_serve.specs.steps.Workers.{KeepsReply, KeepReplies, HasSeat, HasWorked, WasJoined};

use crate::queues::WorkerQueue;
use crate::replies::PendingReply;
use crate::stages::Stage;
use crate::turns::{Next, go};
use flow_core::{Core, Gate, Job};
use flow_shared::{Shared, SharedSeat};
use flow_turns::{run, take_answer};
use flux_doors::Link;
use flux_library::Library;
use std::alloc::Global;
use std::collections::VecDeque;
use std::marker::{Send, Sync};
use std::sync::Wait;
use std::thread;
use std::thread::Threads;
use thread_backoff::Pause;

/// Lets the flow of a link go on: in one turn up to its call, which is run outside the turn, or to its `end`, after which its
/// reply is written.
fn visit<L: Library, K: Link, G: Gate, R: Wait>(
    rt: &R,
    alloc: Global,
    shared: &Shared<L>,
    seat: SharedSeat<L>,
    reply: &mut PendingReply<K>,
    gate: &G,
) -> (SharedSeat<L>, Stage)
    requires shared { seat.shared ≡ shared.now }
    requires text { HasText reply.old.request.sent }
    ensures shared { result.0.shared ≡ shared.now }
    ensures seen { BeginsWith result.0.seen seat.seen }
    ensures reply { IsReplySoFar K.seen result.0.seen reply.old reply.new }
{
    let flow = reply.flow;
    let mut turn = shared.turn(rt, seat);
    let next = go(alloc, &mut turn.core, flow);
    let seat = shared.give(turn);
    match next {
        Next::Runs(job) => call(rt, alloc, shared, seat, &job, gate),
        Next::Replies(text) => {
            reply.write(text.as_slice());
            (seat, Stage::Went)
        }
        Next::Stands(stage) => (seat, stage),
    }
}

/// Runs a flow's call outside the turn, and hands its answer in.
fn call<L: Library, G: Gate, R: Wait>(
    rt: &R,
    alloc: Global,
    shared: &Shared<L>,
    seat: SharedSeat<L>,
    job: &Job<L>,
    gate: &G,
) -> (SharedSeat<L>, Stage)
    requires shared { seat.shared ≡ shared.now }
    requires call { IsCallIn shared.now.base.setup job.now }
    ensures shared { result.0.shared ≡ shared.now }
    ensures seen { BeginsWith result.0.seen seat.seen }
{
    let made = run(alloc, job, gate);
    let mut turn = shared.turn(rt, seat);
    let goes = take_answer(&mut turn.core, job.flow(), made);
    (shared.give(turn), stage_behind(goes))
}

/// The stage of a flow whose answer was handed in.
fn stage_behind(goes: bool) -> Stage {
    if goes { Stage::Went } else { Stage::Halted }
}

/// The same, if the link is open.
fn visit_open<L: Library, K: Link, G: Gate, R: Wait>(
    rt: &R,
    alloc: Global,
    shared: &Shared<L>,
    seat: SharedSeat<L>,
    reply: &mut PendingReply<K>,
    gate: &G,
) -> (SharedSeat<L>, Stage)
    requires { seat.shared ≡ shared.now }
    ensures shared { result.0.shared ≡ shared.now }
    ensures seen { BeginsWith result.0.seen seat.seen }
    ensures reply { KeepsReply K.seen seat.seen result.0.seen reply.old reply.new }
{
    if reply.is_open() {
        return visit(rt, alloc, shared, seat, reply, gate);
    }
    (seat, Stage::Ended)
}

/// The stage of a worker after one of its visits, with the stage before.
fn stage_with(before: Stage, stage: Stage) -> Stage {
    match (before, stage) {
        (Stage::Halted, _) | (_, Stage::Halted) => Stage::Halted,
        (Stage::Went, _) | (_, Stage::Went) => Stage::Went,
        (Stage::Waits, _) | (_, Stage::Waits) => Stage::Waits,
        (Stage::Ended, Stage::Ended) => Stage::Ended,
    }
}

/// A visit for each link that is open. It has ended where none is.
fn round<L: Library, K: Link, G: Gate, R: Wait>(
    rt: &R,
    alloc: Global,
    shared: &Shared<L>,
    seat: SharedSeat<L>,
    replies: &mut [PendingReply<K>],
    gate: &G,
) -> (SharedSeat<L>, Stage)
    requires { seat.shared ≡ shared.now }
    ensures shared { result.0.shared ≡ shared.now }
    ensures seen { BeginsWith result.0.seen seat.seen }
    ensures replies { KeepReplies K.seen seat.seen result.0.seen replies.old replies.new }
{
    let mut seat = seat;
    let mut all = Stage::Ended;
    for place in 0..replies.len() {
        let (back, stage) = visit_open(rt, alloc, shared, seat, &mut replies[place], gate);
        seat = back;
        all = stage_with(all, stage);
    }
    (seat, all)
}

/// The work of one worker, round after round, until all its links are answered or the core is halted. Where no flow of its own
/// can go on, it gives its processor away.
fn rounds<L: Library, K: Link, G: Gate, R: Wait>(
    rt: &R,
    alloc: Global,
    shared: &Shared<L>,
    seat: SharedSeat<L>,
    replies: &mut [PendingReply<K>],
    gate: &G,
) -> SharedSeat<L>
    requires { seat.shared ≡ shared.now }
    ensures shared { result.shared ≡ shared.now }
    ensures replies { KeepReplies K.seen seat.seen result.seen replies.old replies.new }
{
    let mut seat = seat;
    let mut pause = Pause::new();
    for _ in rt.forever() {
        let (back, stage) = round(rt, alloc, shared, seat, replies, gate);
        seat = back;
        match stage {
            Stage::Went => pause = Pause::new(),
            Stage::Waits => pause.rest(rt),
            Stage::Ended | Stage::Halted => return seat,
        }
    }
    seat
}

/// The same, over a queue of links.
fn answer_all<L: Library, K: Link, G: Gate, R: Wait>(
    rt: &R,
    alloc: Global,
    shared: &Shared<L>,
    seat: SharedSeat<L>,
    replies: &mut VecDeque<PendingReply<K>>,
    gate: &G,
) -> SharedSeat<L>
    requires shared { seat.shared ≡ shared.now }
    ensures shared { result.shared ≡ shared.now }
    ensures replies { AreRepliesSoFar K.seen result.seen replies.old.items replies.new.items }
{
    rounds(rt, alloc, shared, seat, replies.make_contiguous(), gate)
}

/// The work of a queue.
fn work<L: Library, K: Link, G: Gate, R: Wait>(
    rt: &R,
    alloc: Global,
    shared: &Shared<L>,
    queue: &mut WorkerQueue<SharedSeat<L>, K>,
    gate: &G,
)
    requires { HasSeat shared.now queue.old }
    ensures { HasWorked K.seen shared.now queue.old queue.new }
{
    let Some(seat) = queue.seat.take() else {
        unreachable!()
    };
    let seat = answer_all(rt, alloc, shared, seat, &mut queue.replies, gate);
    queue.seat = Some(seat);
}

/// The work of all queues, each by a thread.
fn shift<L: Library + Send + Sync, K: Link + Send, G: Gate + Sync, R: Threads + Wait + Sync>(
    rt: &R,
    alloc: Global,
    shared: &Shared<L>,
    queues: &mut [WorkerQueue<SharedSeat<L>, K>],
    gate: &G,
)
    requires some { 0 < length queues.old }
    requires seats { (place : ℕ) (none : WorkerQueue (SeatState L) K) → place < length queues.old
        → HasSeat shared.now (slice_index_or queues.old place none) }
    ensures { (place : ℕ) (none : WorkerQueue (SeatState L) K) → place < length queues.old
        → HasWorked K.seen shared.now
        (slice_index_or queues.old place none) (slice_index_or queues.new place none) }
{
    let threads = queues.len();
    thread::for_each_mut(
        rt,
        queues,
        threads,
        &|_, queue: &mut WorkerQueue<SharedSeat<L>, K>|
            requires { HasSeat shared.now queue.old }
            ensures { HasWorked K.seen shared.entry.now queue.old queue.new }
        { work(rt, alloc, shared, queue, gate) },
    );
}

/// Gives each queue a seat, beside the one that is left.
fn seat_all<L: Library, K: Drop>(
    shared: &Shared<L>,
    seat: SharedSeat<L>,
    queues: &mut [WorkerQueue<SharedSeat<L>, K>],
) -> SharedSeat<L>
    requires { seat.shared ≡ shared.now }
    ensures shared { result.shared ≡ shared.now }
    ensures seats { (place : ℕ) (none : WorkerQueue (SeatState L) K) → place < length queues.old
        → HasSeat shared.now (slice_index_or queues.new place none) }
    ensures replies { (place : ℕ) (none : WorkerQueue (SeatState L) K) → place < length queues.old
        → (slice_index_or queues.new place none).replies ≡ (slice_index_or queues.old place none).replies }
{
    let mut seat = seat;
    for place in 0..queues.len() {
        let (kept, given) = shared.split(seat);
        seat = kept;
        queues[place].seat = Some(given);
    }
    seat
}

/// Joins a queue's seat to another.
fn join_queue<L: Library, K: Drop>(
    shared: &Shared<L>,
    seat: SharedSeat<L>,
    queue: &mut WorkerQueue<SharedSeat<L>, K>,
) -> SharedSeat<L>
    requires seat { seat.shared ≡ shared.now }
    requires has { HasSeat shared.now queue.old }
    ensures shared { result.shared ≡ shared.now }
    ensures seen { BeginsWith result.seen seat.seen }
    ensures other { IfSome queue.old.seat (λ other. BeginsWith result.seen other.seen) }
    ensures replies { queue.new.replies ≡ queue.old.replies }
{
    let Some(other) = queue.seat.take() else {
        unreachable!()
    };
    shared.join(seat, other)
}

/// Joins the seats of all queues to one.
fn join_all<L: Library, K: Drop>(
    shared: &Shared<L>,
    seat: SharedSeat<L>,
    queues: &mut [WorkerQueue<SharedSeat<L>, K>],
) -> SharedSeat<L>
    requires seat { seat.shared ≡ shared.now }
    requires seats { (place : ℕ) (none : WorkerQueue (SeatState L) K) → place < length queues.old
        → HasSeat shared.now (slice_index_or queues.old place none) }
    ensures shared { result.shared ≡ shared.now }
    ensures queues { (place : ℕ) (none : WorkerQueue (SeatState L) K) → place < length queues.old
        → WasJoined result (slice_index_or queues.old place none) (slice_index_or queues.new place none) }
{
    let mut seat = seat;
    for place in 0..queues.len() {
        seat = join_queue(shared, seat, &mut queues[place]);
    }
    seat
}

/// Lets the workers drive a core, each the flows of its queue's links, and write their replies.
pub fn drive<
    L: Library + Send + Sync,
    K: Link + Drop + Send,
    G: Gate + Sync,
    R: Threads + Wait + Sync,
>(
    rt: &R,
    alloc: Global,
    core: Core<L>,
    queues: &mut [WorkerQueue<SharedSeat<L>, K>],
    gate: &G,
) -> Core<L>
    requires some { 0 < length queues.old }
    ensures on { GoesOn core result }
    ensures replies { (place : ℕ) (none : WorkerQueue (SeatState L) K) → place < length queues.old
        → AreRepliesSoFar K.seen result.entries
        (slice_index_or queues.old place none).replies.items (slice_index_or queues.new place none).replies.items }
{
    match Shared::new(alloc, core) {
        Ok((shared, seat)) => {
            let seat = seat_all(&shared, seat, queues);
            shift(rt, alloc, &shared, queues, gate);
            let seat = join_all(&shared, seat, queues);
            shared.close(rt, seat)
        }
        Err(stopped) => stopped.core,
    }
}
