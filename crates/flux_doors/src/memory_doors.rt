//! A door in memory, whose calls fail where a test wants them to.

ghost use Rattle.std.specs.Prelude.{◌≡◌, ◌≤◌, ◌+◌, [], ◌∷◌, IfOk, vec_len, vec_capacity, length};
ghost use Rattle.std.specs.VecDeque.{deque_len};
ghost use Rattle.flux_doors.specs.steps.Queues.{queued_in, links_of};

use crate::doors::{Door, OUT_LIMIT};
use crate::framing::Framing;
use crate::memory_links::MemoryLink;
use flux_outside::{Calls, Failed, count_failure};
use flux_values::{List, Memory};
use std::alloc::Global;
use std::collections::VecDeque;

/// A door in memory with the batches of links that come.
pub struct MemoryDoor {
    /// What is left of the batch that has begun, and the batches after it.
    begun: VecDeque<MemoryLink>,
    later: VecDeque<VecDeque<MemoryLink>>,
    /// The links taken back, with room for all.
    back: Vec<MemoryLink>,
    port: Option<u16>,
    out: usize,
    calls: Calls,
    faults: u64,
    late: u64,
    ghost reserved: { vec_len back + out + deque_len begun + queued_in later.items ≤ vec_capacity back },
}

impl Drop for MemoryDoor {
    fn drop(self) {
        let MemoryDoor {
            begun,
            later,
            back,
            port,
            out,
            calls,
            faults,
            late,
        } = self;
    }
}

/// The links of a batch, the first in front.
fn queue_of(alloc: Global, batch: List<MemoryLink>) -> Result<VecDeque<MemoryLink>, Memory>
    ensures links { IfOk result (λ queue. queue.items ≡ batch) }
    ensures count { IfOk result (λ queue. deque_len queue ≡ length batch) }
{
    let mut batch = batch;
    let mut queue = VecDeque::new(alloc);
    'links: while let Some(link) = batch.pop() {
        queue.push_front(link)?;
    }
    Ok(queue)
}

/// How many links some batches have.
fn count_of(batches: &[List<MemoryLink>]) -> Result<usize, Memory>
    ensures { IfOk result (λ count. count ≡ links_of batches.now) }
{
    let mut count = 0usize;
    for batch in batches {
        count = count.checked_add(batch.len()).ok_or(Memory)?;
    }
    Ok(count)
}

impl MemoryDoor {
    ghost use Rattle.flux_doors.specs.Memory.{door_links, door_back, IsNewDoor};
    ghost use Rattle.flux_doors.specs.Doors.{waiting};

    /// A door with these batches of links. Of opening and accepting, the calls whose numbers are in `fails`, counted
    /// from 1, fail. Room for all links taken back is reserved here.
    pub fn new(
        alloc: Global,
        batches: List<List<MemoryLink>>,
        fails: List<u64>,
    ) -> Result<MemoryDoor, Memory>
        ensures links { IfOk result (λ door. door_links door ≡ [] ∷ batches) }
        ensures made { IfOk result (λ door. IsNewDoor door fails) }
    {
        let mut batches = batches;
        let back = Vec::with_capacity(alloc, count_of(batches.as_slice())?)?;
        let mut later = VecDeque::new(alloc);
        'batches: while let Some(batch) = batches.pop() {
            later.push_front(queue_of(alloc, batch)?)?;
        }
        Ok(MemoryDoor {
            begun: VecDeque::new(alloc),
            later,
            back,
            port: None,
            out: 0,
            calls: Calls::new(fails),
            faults: 0,
            late: 0,
        })
    }

    /// The links taken back, in order.
    pub fn taken_back(&self) -> &[MemoryLink]
        ensures { result.now ≡ door_back self.now }
    {
        self.back.as_slice()
    }

    /// Goes on to the next batch that has links. Where none has, the batch that has begun is empty.
    fn begin(&mut self)
        ensures links { door_links self.new ≡ waiting (door_links self.old) }
        ensures back { (self.new.back ≡ self.old.back) × (self.new.out ≡ self.old.out) }
        ensures port { self.new.port ≡ self.old.port }
        ensures calls { self.new.calls ≡ self.old.calls }
        ensures counts { (self.new.faults ≡ self.old.faults) × (self.new.late ≡ self.old.late) }
    {
        'batches: while self.begun.is_empty() {
            match self.later.pop_front() {
                Some(batch) => self.begun = batch,
                None => return,
            }
        }
    }
}

impl Door for MemoryDoor {
    ghost use Rattle.std.specs.Prelude.{◌≡◌, ◌<◌, ◌+◌, ◌↔◌, ◌∷◌, [], IfOk, IfSome, IsErr};
    ghost use Rattle.std.specs.Option.{option_map};
    ghost use Rattle.flux_outside.specs.Causes.{HasCause};
    ghost use Rattle.flux_doors.specs.Doors.{opened_at, looked_at, first_link, left_behind, HasAcceptCause, out_after};
    ghost use Rattle.flux_doors.specs.Seen.{TakesBack, KeepsElse};
    ghost use Rattle.flux_doors.specs.Memory.{door_seen, door_out, DoorIsToFail, DoorWasCalled};

    type Link = MemoryLink;

    ghost seen = { door_seen };

    ghost out = { λ door. door_out door };

    /// All its texts are there already, so how they end is nothing to it.
    fn expect(&mut self, framing: Framing)
        ensures kept { door_seen self.new ≡ door_seen self.old }
        ensures out { door_out self.new ≡ door_out self.old }
        // No call is counted, and nothing else changes.
        ensures same { self.new ≡ self.old }
    {
        let _ = framing;
    }

    fn open(&mut self, port: u16) -> Result<(), Failed>
        ensures opened { (door_seen self.new).open_at ≡ opened_at port (door_seen self.old).open_at result }
        ensures to_come { (door_seen self.new).to_come ≡ (door_seen self.old).to_come }
        ensures back { (door_seen self.new).taken_back ≡ (door_seen self.old).taken_back }
        ensures out { door_out self.new ≡ door_out self.old }
        ensures late { (door_seen self.new).late ≡ (door_seen self.old).late }
        ensures cause { HasCause (door_seen self.old).faults (door_seen self.new).faults result }
        // The calls that are to fail do, and no other.
        ensures fails { IsErr result ↔ DoorIsToFail self.old }
        ensures called { DoorWasCalled self.old self.new }
    {
        if self.calls.count() {
            return Err(count_failure(&mut self.faults));
        }
        self.port = Some(port);
        Ok(())
    }

    fn accept(&mut self, first: bool) -> Result<Option<MemoryLink>, Failed>
        requires { door_out self.old < OUT_LIMIT }
        ensures given { IfSome (door_seen self.old).to_come (λ links. IfOk result (λ link. link ≡ first_link (looked_at first links))) }
        ensures left { (door_seen self.new).to_come ≡ option_map (left_behind first result) (door_seen self.old).to_come }
        ensures back { (door_seen self.new).taken_back ≡ (door_seen self.old).taken_back }
        ensures stays { (door_seen self.new).open_at ≡ (door_seen self.old).open_at }
        ensures out { door_out self.new ≡ out_after (door_out self.old) result }
        ensures cause { HasAcceptCause first (door_seen self.old) (door_seen self.new) result }
        ensures fails { IsErr result ↔ DoorIsToFail self.old }
        ensures called { DoorWasCalled self.old self.new }
    {
        if self.calls.count() {
            return Err(if first {
                count_failure(&mut self.faults)
            } else {
                count_failure(&mut self.late)
            });
        }
        if first {
            self.begin();
        }
        let link = self.begun.pop_front();
        if link.is_some() {
            self.out += 1;
        }
        Ok(link)
    }

    fn done(&mut self, link: MemoryLink)
        requires { 0 < door_out self.old }
        ensures back { TakesBack (door_seen self.old).taken_back (door_seen self.new).taken_back (link ∷ []) }
        ensures kept { KeepsElse (door_seen self.old) (door_seen self.new) }
        ensures out { door_out self.new + 1 ≡ door_out self.old }
        // No call is counted.
        ensures called { self.new.calls ≡ self.old.calls }
    {
        self.out -= 1;
        self.back.push_reserved(link);
    }
}
