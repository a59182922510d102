//! Links that a worker answers, one after another.

ghost use Rattle.std.specs.Prelude.{◌≡◌, ◌+◌, ◌<◌, ◌≤◌, true, false, MatchBool};
ghost use Rattle.flux_outside.specs.Streams.{WroteOrBroke};
ghost use Rattle.flux_doors.specs.Seen.{IsUnread};
ghost use Rattle.flux_batches.specs.Replies.{flow_behind};
ghost use Rattle.flux_serve.specs.steps.PendingReplies.{HasText, IsReplySoFar, IsBackOf};

use flow_model::Entry;
use flux_batches::{ReadLink, Sent, reply, send};
use flux_doors::Link;
use flux_model::FlowNo;

/// A link of a batch beside its flow, and whether it was written the flow's reply.
#[derive(Drop)]
pub struct PendingReply<K> {
    pub request: ReadLink<K>,
    pub flow: FlowNo,
    pub written: bool,
}

/// The flow of the next link with an item, after one.
pub fn flow_behind(flow: u32, sent: &Sent) -> u32
    requires { flow < 64 }
    ensures flow { result ≡ flow_behind flow sent.now }
    ensures bound { result ≤ flow + 1 }
{
    match sent {
        Sent::Text(_) => flow + 1,
        Sent::Failed | Sent::Memory => flow,
    }
}

impl<K: Drop> PendingReply<K> {
    /// The link alone.
    pub fn into_link(self) -> K
        ensures { result ≡ self.request.link }
    {
        self.request.link
    }
}

impl<K: Link> PendingReply<K> {
    /// Whether the link has an item, and wasn't written to.
    pub fn is_open(&self) -> bool
        ensures { MatchBool result (HasText self.now.request.sent × (self.now.written ≡ false))
            (HasText self.now.request.sent → self.now.written ≡ true) }
    {
        match &self.request.sent {
            Sent::Text(_) => !self.written,
            Sent::Failed | Sent::Memory => false,
        }
    }

    /// Writes the reply. A link that fails is its client's loss.
    pub fn write(&mut self, text: &[u8])
        ensures same { IsUnread (K.seen self.old.request.link) (K.seen self.new.request.link) }
        ensures sent { self.new.request.sent ≡ self.old.request.sent }
        ensures written { self.new.written ≡ true }
        ensures wrote { WroteOrBroke (K.seen self.old.request.link).stream (K.seen self.new.request.link).stream text.now }
    {
        self.written = true;
        match send(&mut self.request.link, text) {
            Ok(()) => {}
            Err(_) => {}
        }
    }

    /// Answers a link of a batch that was driven whole, unless it was written to.
    pub fn answer(&mut self, entries: &[Entry], whole: bool)
        ensures sent { self.new.request.sent ≡ self.old.request.sent }
        ensures back { (before : PendingReply K) → before.written ≡ false
            → IsReplySoFar K.seen entries.now before self.old
            → IsBackOf K.seen whole entries.now before self.new.request.link }
    {
        if whole && self.is_open() {
            reply(&mut self.request.link, entries, self.flow);
        }
    }
}
