//! The way from a node back to it, and the cycle with the lowest number of all.

ghost use Rattle.std.specs.Prelude.{◌≡◌, ◌≤◌, ◌<◌, ◌++◌, ◌∷◌, [], length, OnOk, IfOk};
ghost use Rattle.flux_model.specs.declared.programs.TheConstants.{COUNT_LIMIT};
ghost use Rattle.flux_graph.specs.steps.Searching.{leaves_of};
ghost use Rattle.flux_graph.specs.steps.Search.{LeadToNodes};
ghost use Rattle.flux_model.specs.Ordering.{HasCycle, IsLowestCycle};
ghost use Rattle.flux_graph.specs.steps.Clearing.{AreOnNoCycle};
ghost use Rattle.flux_graph.specs.steps.Returning.{moved, Seeks, IsAfter, IsBack};

use crate::clearing::cleared;
use crate::steps::{Step, enter_all, leads_in, leaves};
use flux_model::{Node, NodeNo, Visits};
use flux_values::{List, Memory};
use std::alloc::Global;

/// How far a search for a way back is.
#[derive(Drop)]
struct Return {
    steps: List<Step>,
    entered: Visits,
}

impl Return {
    fn begin(alloc: Global, nodes: &[Node], start: NodeNo) -> Result<Return, Memory>
        requires is_node { start.0 < length nodes.now }
        ensures { IfOk result (Seeks nodes.now start) }
    {
        let mut search = Return {
            steps: List::new(alloc),
            entered: Visits::new(alloc),
        };
        search.enter(alloc, nodes, start)?;
        Ok(search)
    }

    fn enter(&mut self, alloc: Global, nodes: &[Node], node: NodeNo) -> Result<(), Memory>
        ensures { OnOk result (self.new ≡ moved nodes.now self.old node) }
    {
        self.entered.add(node.0)?;
        self.steps.add(Step::Leave(node))?;
        enter_all(&mut self.steps, leads_in(alloc, nodes, node)?.as_slice())
    }

    /// The next node that hasn't been entered, or the one that the search began with.
    fn next(&mut self, nodes: &[Node], start: NodeNo) -> Option<NodeNo>
        ensures { Seeks nodes.now start self.old
            → IsAfter nodes.now start self.old self.new result }
    {
        while let Some(step) = self.steps.pop() {
            match step {
                Step::Leave(_) => {}
                Step::Enter(node) => {
                    if node.0 == start.0 {
                        return Some(node);
                    }
                    if !self.entered.has(node.0) {
                        return Some(node);
                    }
                }
            }
        }
        None
    }
}

fn path_back(alloc: Global, steps: &[Step], start: NodeNo) -> Result<List<NodeNo>, Memory>
    ensures { IfOk result (λ path. path ≡ leaves_of steps.now ++ start ∷ []) }
{
    let mut path = leaves(alloc, steps)?;
    path.add(start)?;
    Ok(path)
}

/// A way from a node over what nodes lead to, back to the node.
fn way_back(alloc: Global, nodes: &[Node], start: NodeNo) -> Result<Option<List<NodeNo>>, Memory>
    requires numbered { LeadToNodes nodes.now }
    requires is_node { start.0 < length nodes.now }
    ensures { IfOk result (IsBack nodes.now start) }
{
    let mut search = Return::begin(alloc, nodes, start)?;
    while let Some(node) = search.next(nodes, start) {
        if node.0 == start.0 {
            return Ok(Some(path_back(alloc, search.steps.as_slice(), start)?));
        }
        search.enter(alloc, nodes, node)?;
    }
    Ok(None)
}

/// A way back, unless it's clear that there is none.
fn way_back_unless_cleared(
    alloc: Global,
    nodes: &[Node],
    cleared: &Visits,
    start: NodeNo,
) -> Result<Option<List<NodeNo>>, Memory>
    requires numbered { LeadToNodes nodes.now }
    requires is_node { start.0 < length nodes.now }
    requires cleared { AreOnNoCycle nodes.now cleared.now }
    ensures { IfOk result (IsBack nodes.now start) }
{
    if cleared.has(start.0) {
        return Ok(None);
    }
    way_back(alloc, nodes, start)
}

/// A cycle through the lowest-numbered node that is on any cycle.
pub fn lowest_cycle(alloc: Global, nodes: &[Node]) -> Result<List<NodeNo>, Memory>
    requires few { length nodes.now ≤ COUNT_LIMIT }
    requires numbered { LeadToNodes nodes.now }
    requires cycle { HasCycle nodes.now }
    ensures { IfOk result (IsLowestCycle nodes.now) }
{
    let cleared = cleared(alloc, nodes)?;
    for number in 0..nodes.len() {
        if let Some(path) = way_back_unless_cleared(
            alloc,
            nodes,
            &cleared,
            NodeNo(number as u32),
        )? {
            return Ok(path);
        }
    }
    unreachable!()
}
