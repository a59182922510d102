//! Which flow each link of a batch has.

ghost use Rattle.std.specs.Prelude.{◌≡◌, ℕ, ◌+◌, ◌<◌, ◌≤◌, All, length, slice_index_or};
ghost use Rattle.flux_batches.specs.steps.Answering.{flow_at};

use crate::gathering::LINK_LIMIT;
use crate::reading::{ReadLink, Sent};

/// The flow of the next link with an item, after the one at a place.
fn next_flow<K>(links: &[ReadLink<K>], place: usize, flow: u32) -> u32
    requires within { place < length links.now }
    requires few { flow < LINK_LIMIT }
    requires at { flow ≡ flow_at 0 links.now place }
    ensures next { result ≡ flow_at 0 links.now (place + 1) }
    ensures bound { result ≤ flow + 1 }
{
    match &links[place].sent {
        Sent::Text(_) => flow + 1,
        Sent::Failed | Sent::Memory => flow,
    }
}

/// The flow of the link at each place: the links with items have those from 0 on, in order. That of a link without one is of no
/// use, and so are those after the last link.
pub fn flows_of<K>(links: &[ReadLink<K>]) -> [u32; LINK_LIMIT]
    requires { length links.now ≤ LINK_LIMIT }
    ensures count { length result ≡ LINK_LIMIT }
    ensures few { All (λ flow. flow < LINK_LIMIT) result }
    ensures flows { (place none : ℕ) → place < length links.now
        → slice_index_or result place none ≡ flow_at 0 links.now place }
{
    let mut flows = [0u32; LINK_LIMIT];
    let mut flow = 0u32;
    for place in 0..links.len() {
        flows[place] = flow;
        flow = next_flow(links, place, flow);
    }
    flows
}
