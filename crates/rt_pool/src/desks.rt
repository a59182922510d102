//! The desk: the queue of flows' numbers, and the numbers that are out.

ghost use Rattle.std.specs.Prelude.{◌≡◌, ◌<◌, All, IfOk, length};

use flow_core::Core;
use flow_queue::{FlowQueue, QueuePass};
use flux_library::Library;
use flux_model::FlowNo;
use flux_values::Memory;
use std::collections::VecDeque;
use std::mem;
use std::sync::Wait;

/// A number that isn't in the queue, or a pass for it.
#[derive(Drop)]
struct Place {
    /// The pass that the number was taken with last. It holds the number until that is put back.
    pass: QueuePass,
    /// Whether the number is out since its flow waits.
    waits: bool,
}

/// The queue, and for each flow the pass that holds its number while that is out: a worker lets the flow go on, or the flow
/// waits, or it was freed. Whoever makes the entry that may let a flow go on frees it, in the same turn. Workers take freed flows
/// before those of the queue: what others wait for is done first.
#[derive(Drop)]
pub struct Desk {
    queue: FlowQueue,
    /// The next number is taken with it.
    spare: QueuePass,
    places: Vec<Place>,
    /// Flows that were freed, first come first. Their numbers are out.
    freed: VecDeque<FlowNo>,
    /// How many numbers the queue has.
    queued: u32,
    ghost spare_fits: { spare.queue ≡ queue },
    ghost places_fit: { All (λ place. place.pass.queue ≡ queue) places.items },
}

/// A place, with a pass of its own.
fn new_place(queue: &FlowQueue, spare: QueuePass) -> (QueuePass, Place)
    requires { spare.queue ≡ queue.now }
    ensures spare { result.0.queue ≡ queue.now }
    ensures place { result.1.pass.queue ≡ queue.now }
{
    let (kept, pass) = queue.split(spare);
    (kept, Place { pass, waits: false })
}

impl Desk {
    /// A desk with the numbers of all flows of a core in its queue.
    pub fn new<L: Library, R: Wait>(rt: &R, core: &Core<L>) -> Result<Desk, Memory>
        requires { 0 < length core.now.setup.items }
        ensures { IfOk result (λ desk. desk.queue.flows ≡ length core.now.setup.items) }
    {
        let alloc = core.alloc();
        let flows = core.flows();
        let (queue, pass) = FlowQueue::new(rt, alloc, flows)?;
        let mut spare = pass;
        let mut places = Vec::new(alloc);
        for _flow in 0..flows {
            let (kept, place) = new_place(&queue, spare);
            spare = kept;
            places.push(place)?;
        }
        Ok(Desk {
            queue,
            spare,
            places,
            freed: VecDeque::new(alloc),
            queued: flows,
        })
    }

    /// Whether a flow may be taken: one that was freed, or one of the queue.
    pub fn has_flows(&self) -> bool {
        self.queued > 0 || !self.freed.is_empty()
    }

    /// Takes the flow that was freed first, or else the number at the queue's front.
    pub fn take<R: Wait>(&mut self, rt: &R) -> Option<FlowNo> {
        if let Some(flow) = self.freed.pop_front() {
            return Some(flow);
        }
        let flow = self.queue.take(rt, &mut self.spare)?;
        let place = self.places.get_mut(flow.0 as usize)?;
        mem::swap(&mut place.pass, &mut self.spare);
        self.queued = self.queued.saturating_sub(1);
        Some(flow)
    }

    /// Puts a number at the back, if it is out.
    pub fn put_back<R: Wait>(&mut self, rt: &R, flow: FlowNo) {
        let Some(place) = self.places.get_mut(flow.0 as usize) else {
            return;
        };
        if place.pass.holds() {
            self.queue.put(rt, &mut place.pass);
            self.queued = self.queued.saturating_add(1);
        }
    }

    /// Notes that a flow waits, whose number is out.
    pub fn park(&mut self, flow: FlowNo) {
        if let Some(place) = self.places.get_mut(flow.0 as usize) {
            place.waits = true;
        }
    }

    /// Frees a flow, if it waits.
    pub fn free(&mut self, flow: FlowNo) -> Result<(), Memory> {
        let Some(place) = self.places.get_mut(flow.0 as usize) else {
            return Ok(());
        };
        if place.waits {
            place.waits = false;
            self.freed.push_back(flow)?;
        }
        Ok(())
    }
}
