//! A queue of two flows.

use flow_queue::FlowQueue;
use flux_model::FlowNo;
use std::alloc::Global;
use std::sync::Wait;
use trial_ends::Trouble;

/// The first pass takes, puts, and takes three times more.
pub fn takes<R: Wait>(rt: &R, alloc: Global) -> Result<[Option<FlowNo>; 4], Trouble> {
    let (queue, mut pass) = FlowQueue::new(rt, alloc, 2)?;
    let Some(first) = queue.take(rt, &mut pass) else {
        return Err(Trouble::Wrong);
    };
    queue.put(rt, &mut pass);
    let second = queue.take(rt, &mut pass);
    let third = queue.take(rt, &mut pass);
    let fourth = queue.take(rt, &mut pass);
    Ok([Some(first), second, third, fourth])
}
