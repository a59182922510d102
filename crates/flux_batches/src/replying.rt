//! Replies: written to the links, or copied out of a journal.

ghost use Rattle.std.specs.Prelude.{◌≡◌, ℕ, ◌<◌, ◌≤◌, All, length, slice_index_or, IfOk, OnOk, OnErr};
ghost use Rattle.flux_batches.specs.steps.Answering.{WasAnswered};
ghost use Rattle.flux_batches.specs.steps.Spans.{AreSpans};
ghost use Rattle.std.specs.VecDeque.{deque_len};
ghost use Rattle.flux_outside.specs.Streams.{Wrote, Broke, WroteOrBroke};
ghost use Rattle.flux_doors.specs.Seen.{IsUnread, KeepsElse};
ghost use Rattle.flux_batches.specs.Replies.{reply_of, AreAllAnswered};

use crate::gathering::{LINK_LIMIT, give_back_read};
use crate::numbering::flows_of;
use crate::reading::{ReadLink, Sent, threads_for};
use crate::spans::{Span, emission_of, spanned, spans_of};
use flow_model::Entry;
use flux_doors::{Door, Link};
use flux_model::FlowNo;
use flux_outside::Failed;
use flux_values::Memory;
use std::alloc::Global;
use std::collections::VecDeque;
use std::marker::{Send, Sync};
use std::thread;
use std::thread::Threads;

/// Writes all of the bytes to a link, in as many calls as it needs.
pub fn send<K: Link>(link: &mut K, bytes: &[u8]) -> Result<(), Failed>
    ensures same { IsUnread (K.seen link.old) (K.seen link.new) }
    ensures wrote { OnOk result (Wrote (K.seen link.old).stream (K.seen link.new).stream bytes.now) }
    ensures broke { OnErr result (Broke (K.seen link.old).stream (K.seen link.new).stream bytes.now) }
{
    let mut rest = bytes;
    while !rest.is_empty() {
        let count = link.write(rest)?;
        rest = &rest[count..];
    }
    Ok(())
}

/// Writes a flow's reply to its link: what its calls emit, in order, until that fails.
pub fn reply<K: Link>(link: &mut K, entries: &[Entry], flow: FlowNo)
    ensures same { IsUnread (K.seen link.old) (K.seen link.new) }
    ensures wrote { WroteOrBroke (K.seen link.old).stream (K.seen link.new).stream (reply_of flow.0 entries.now) }
{
    for entry in entries {
        match send(link, emission_of(entry, flow)) {
            Ok(()) => {}
            Err(_) => return,
        }
    }
}

/// A flow's reply, copied out of a journal.
pub fn copy_of_reply(alloc: Global, entries: &[Entry], flow: FlowNo) -> Result<Vec<u8>, Memory>
    ensures { IfOk result (λ reply. reply.items ≡ reply_of flow.0 entries.now) }
{
    let mut reply = Vec::new(alloc);
    for entry in entries {
        reply.extend_from_slice(emission_of(entry, flow))?;
    }
    Ok(reply)
}

/// Answers a link, if it has an item, by the flow of its place.
fn answer<K: Link>(request: &mut ReadLink<K>, entries: &[Entry], spans: &[Span], flow: u32)
    requires few { flow < length spans.now }
    requires spans { AreSpans entries.now spans.now }
    ensures { WasAnswered K.seen entries.now flow request.old request.new }
{
    match &request.sent {
        Sent::Text(_) => {
            let flow = FlowNo(flow);
            reply(&mut request.link, spanned(entries, spans, flow), flow);
        }
        Sent::Failed | Sent::Memory => {}
    }
}

/// Answers links, each at its place.
fn answer_each<R: Threads + Sync, K: Link + Send>(
    rt: &R,
    links: &mut [ReadLink<K>],
    entries: &[Entry],
    spans: &[Span],
    flows: &[u32],
)
    requires few { All (λ flow. flow < length spans.now) flows.now }
    requires all { length links.old ≤ length flows.now }
    requires spans { AreSpans entries.now spans.now }
    ensures { (place : ℕ) (none : ReadLink K) → place < length links.old
        → WasAnswered K.seen entries.now (slice_index_or flows.now place 0)
        (slice_index_or links.old place none) (slice_index_or links.new place none) }
{
    let threads = threads_for(links.len());
    thread::for_each_mut(
        rt,
        links,
        threads,
        &|place, request: &mut ReadLink<K>|
            requires few { All (λ flow. flow < length spans.now) flows.now }
            requires within { place < length flows.now }
            requires spans { AreSpans entries.now spans.now }
        { answer(request, entries, spans, flows[place]) },
    );
}

/// Answers all links from a journal, and gives them back in order. The flows are those of the links with items, in order.
pub fn answer_links<R: Threads + Sync, D: Door>(
    rt: &R,
    door: &mut D,
    links: VecDeque<ReadLink<D::Link>>,
    entries: &[Entry],
)
    requires out { D.out door.old ≡ deque_len links }
    requires few { deque_len links ≤ LINK_LIMIT }
    ensures out { D.out door.new ≡ 0 }
    ensures answered { AreAllAnswered D.Link.seen
        entries.now links.items (D.seen door.old).taken_back (D.seen door.new).taken_back }
    ensures kept { KeepsElse (D.seen door.old) (D.seen door.new) }
{
    let mut links = links;
    let spans = spans_of(entries);
    let all = links.make_contiguous();
    let flows = flows_of(all);
    answer_each(rt, all, entries, &spans, &flows);
    give_back_read(door, links);
}
