//! Nodes of which it's clear that they are on no cycle.
//!
//! What has been visited is closed: all that it leads to has been visited too. A node that hasn't been visited, and
//! that leads to nothing else than what has, can't lead on to itself. In the order that is taken here each other node
//! is on a cycle.

ghost use Rattle.std.specs.Prelude.{◌≡◌, ◌≤◌, length, OnOk, IfOk, slice_get};
ghost use Rattle.flux_model.specs.declared.programs.TheConstants.{COUNT_LIMIT};
ghost use Rattle.flux_model.specs.Visits.{IsKnown, with_all};
ghost use Rattle.flux_graph.specs.steps.Clearing.{leads_at, AreClosed, AreOnNoCycle, IsClearing};

use crate::leaving::leaving_order;
use crate::steps::leads_in;
use flux_model::{Node, NodeNo, Visits};
use flux_values::Memory;
use std::alloc::Global;

/// What has been visited, and of which nodes it's clear that they are on no cycle.
#[derive(Drop)]
struct Clearing {
    visited: Visits,
    cleared: Visits,
}

/// Visits what the node at a place of the visits leads to.
fn visit_from(
    alloc: Global,
    visits: &mut Visits,
    nodes: &[Node],
    place: usize,
) -> Result<(), Memory>
    ensures { OnOk result
        (visits.new ≡ with_all visits.old (leads_at nodes.now (slice_get visits.old place))) }
{
    match visits.get(place) {
        Some(number) => visits.add_all(leads_in(alloc, nodes, NodeNo(number))?.as_slice()),
        None => Ok(()),
    }
}

/// Visits a node, and all that it leads on to.
fn visit_onward(
    alloc: Global,
    visits: &mut Visits,
    nodes: &[Node],
    start: NodeNo,
) -> Result<(), Memory>
    ensures start { OnOk result (IsKnown start.0 visits.new) }
    ensures closed { AreClosed nodes.now visits.old → OnOk result (AreClosed nodes.now visits.new) }
{
    let mut place = visits.len();
    visits.add(start.0)?;
    while place < visits.len() {
        visit_from(alloc, visits, nodes, place)?;
        place += 1;
    }
    Ok(())
}

impl Clearing {
    /// Visits a node that hasn't been visited. It's clear where it leads to nothing else than what has been.
    fn visit(&mut self, alloc: Global, nodes: &[Node], node: NodeNo) -> Result<(), Memory>
        ensures { IsClearing nodes.now self.old → OnOk result (IsClearing nodes.now self.new) }
    {
        if self.visited.has(node.0) {
            return Ok(());
        }
        if self
            .visited
            .has_all(leads_in(alloc, nodes, node)?.as_slice())
        {
            self.cleared.add(node.0)?;
        }
        visit_onward(alloc, &mut self.visited, nodes, node)
    }
}

/// Nodes that are on no cycle: in this order all of them, but the contract says only that those given are.
pub fn cleared(alloc: Global, nodes: &[Node]) -> Result<Visits, Memory>
    requires few { length nodes.now ≤ COUNT_LIMIT }
    ensures { IfOk result (AreOnNoCycle nodes.now) }
{
    let mut clearing = Clearing {
        visited: Visits::new(alloc),
        cleared: Visits::new(alloc),
    };
    let mut order = leaving_order(alloc, nodes)?;
    while let Some(node) = order.pop() {
        clearing.visit(alloc, nodes, node)?;
    }
    Ok(clearing.cleared)
}
