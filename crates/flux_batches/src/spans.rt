//! Where the emissions of flows are in a journal: so that a reply is written without looking at all entries of a batch.

ghost use Rattle.std.specs.Prelude.{◌≡◌, ◌^◌, ◌<◌, nat_eq, if◌then◌else◌, List, [], ◌∷◌, ◌++◌, length};
ghost use Rattle.flux_batches.specs.Replies.{emitted, reply_of};
ghost use Rattle.flux_batches.specs.steps.Spans.{AreSpans, span_with};

use crate::gathering::LINK_LIMIT;
use flow_model::{Entry, Event};
use flux_model::FlowNo;

/// From the first entry of a flow that emits something to after the last one.
#[derive(Clone, Copy)]
pub struct Span {
    pub from: usize,
    pub to: usize,
}

impl Span {
    /// With one place more, after all of its places.
    fn with(self, place: usize) -> Span
        requires { place < 2 ^ 63 }
        ensures { result ≡ span_with self place }
    {
        Span {
            from: if self.to == 0 { place } else { self.from },
            to: place + 1,
        }
    }
}

/// What an entry emits, if it is of a flow.
pub fn emission_of(entry: &Entry, flow: FlowNo) -> &[u8]
    ensures { result.now ≡ (if nat_eq entry.now.flow.0 flow.0 then emitted entry.now.event else []) }
{
    if entry.flow.0 != flow.0 {
        return &[];
    }
    match &entry.event {
        Event::Call(made) => made.answer.as_answer().emits.as_bytes(),
        Event::Take(_, _) | Event::Wait(_, _) | Event::Enter(_) | Event::Choose(_) => &[],
        Event::Exit(_, _) | Event::Drop(_) | Event::End(_) => &[],
    }
}

/// Notes an entry, after as many others.
fn note(spans: &mut [Span], place: usize, entry: &Entry)
    requires { place < 2 ^ 63 }
    ensures count { length spans.new ≡ length spans.old }
    ensures spans { (entries : List Entry) → length entries ≡ place → AreSpans entries spans.old
        → AreSpans (entries ++ entry.now ∷ []) spans.new }
{
    if emission_of(entry, entry.flow).is_empty() {
        return;
    }
    let flow = entry.flow.0 as usize;
    if flow >= spans.len() {
        return;
    }
    spans[flow] = spans[flow].with(place);
}

/// The spans of the flows of a batch.
pub fn spans_of(entries: &[Entry]) -> [Span; LINK_LIMIT]
    ensures count { length result ≡ LINK_LIMIT }
    ensures spans { AreSpans entries.now result }
{
    let mut spans = [Span { from: 0, to: 0 }; LINK_LIMIT];
    for place in 0..entries.len() {
        note(&mut spans, place, &entries[place]);
    }
    spans
}

/// The entries among which a flow emits all that it does.
pub fn spanned<'a>(entries: &'a [Entry], spans: &[Span], flow: FlowNo) -> &'a [Entry]
    requires bound { flow.0 < length spans.now }
    requires spans { AreSpans entries.now spans.now }
    ensures { reply_of flow.0 result.now ≡ reply_of flow.0 entries.now }
{
    let Span { from, to } = spans[flow.0 as usize];
    &entries[from..to]
}
