//! Queues: each worker's links, dealt by the numbers of their flows and taken back in order.

ghost use Rattle.std.specs.Prelude.{◌≡◌, ℕ, ◌<◌, ◌≤◌, All, IfOk, length, vec_len, slice_index_or, List, [], None};
ghost use Rattle.std.specs.VecDeque.{deque_len};
ghost use Rattle.flux_doors.specs.Seen.{TakesBack, KeepsElse};
ghost use Rattle.flux_serve.specs.steps.PendingReplies.{AreRepliesSoFar, share, IsEmptyQueue, AreBack};

use crate::replies::{PendingReply, flow_behind};
use flow_model::Entry;
use flux_batches::{LINK_LIMIT, ReadLink};
use flux_doors::Door;
use flux_model::FlowNo;
use flux_values::Memory;
use std::alloc::Global;
use std::collections::VecDeque;
use std::snapshot::Snapshot;

/// A worker's seat, where it has one, and the links of its flows.
#[derive(Drop)]
pub struct WorkerQueue<S, K> {
    pub seat: Option<S>,
    pub replies: VecDeque<PendingReply<K>>,
}

/// A queue for each worker, with room for so many links.
pub fn empty_queues<S: Drop, K: Drop>(
    alloc: Global,
    workers: u8,
    room: usize,
) -> Result<Vec<WorkerQueue<S, K>>, Memory>
    ensures count { IfOk result (λ queues. vec_len queues ≡ workers) }
    ensures empty { IfOk result (λ queues. All (IsEmptyQueue room) queues.items) }
{
    let mut queues = Vec::new(alloc);
    for _ in 0..workers {
        let replies = VecDeque::with_capacity(alloc, room)?;
        queues.push(WorkerQueue {
            seat: None,
            replies,
        })?;
    }
    Ok(queues)
}

/// Deals links to queues by the numbers of their flows. A link without an item goes with the next one.
pub fn deal<S: Drop, K: Drop>(queues: &mut [WorkerQueue<S, K>], links: VecDeque<ReadLink<K>>)
    requires some { 0 < length queues.old }
    requires few { deque_len links ≤ LINK_LIMIT }
    requires empty { All (IsEmptyQueue (deque_len links)) queues.old }
    ensures count { length queues.new ≡ length queues.old }
    ensures dealt { (worker : ℕ) (none : WorkerQueue S K) → worker < length queues.old
        → (slice_index_or queues.new worker none).replies.items ≡ share (length queues.old) worker 0 links.items }
    ensures seats { (worker : ℕ) (none : WorkerQueue S K) → worker < length queues.old
        → (slice_index_or queues.new worker none).seat ≡ None }
{
    let mut links = links;
    let mut flow = 0u32;
    'links: while let Some(request) = links.pop_front() {
        let next = flow_behind(flow, &request.sent);
        let worker = flow as usize % queues.len();
        queues[worker].replies.push_back_reserved(PendingReply {
            request,
            flow: FlowNo(flow),
            written: false,
        });
        flow = next;
    }
}

/// Gives all links back to the door, in order. Those of a batch that was driven whole are answered first, unless they were.
pub fn give_back_links<S: Drop, D: Door>(
    door: &mut D,
    queues: &mut [WorkerQueue<S, D::Link>],
    came: &Snapshot<VecDeque<ReadLink<D::Link>>>,
    count: usize,
    entries: &[Entry],
    whole: bool,
)
    requires some { 0 < length queues.old }
    requires few { count ≤ LINK_LIMIT }
    requires count { length came.now.value.items ≡ count }
    requires out { D.out door.old ≡ count }
    requires replies { (worker : ℕ) (none : WorkerQueue S D.Link) → worker < length queues.old
        → AreRepliesSoFar D.Link.seen entries.now
        (share (length queues.old) worker 0 came.now.value.items) (slice_index_or queues.old worker none).replies.items }
    ensures out { D.out door.new ≡ 0 }
    ensures back { (backs : List D.Link) × (next : ℕ) × TakesBack (D.seen door.old).taken_back (D.seen door.new).taken_back backs
        × AreBack D.Link.seen whole entries.now 0
        came.now.value.items backs [] next }
    ensures kept { KeepsElse (D.seen door.old) (D.seen door.new) }
{
    let mut flow = 0u32;
    let mut left = count;
    'links: while left > 0 {
        let worker = flow as usize % queues.len();
        let Some(reply) = queues[worker].replies.pop_front() else {
            unreachable!()
        };
        let mut reply = reply;
        reply.answer(entries, whole);
        flow = flow_behind(flow, &reply.request.sent);
        left -= 1;
        door.done(reply.into_link());
    }
}
