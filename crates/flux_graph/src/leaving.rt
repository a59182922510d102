//! The order in which a search in depth against leading exits nodes.
//!
//! Where a node leads on to another that doesn't lead back, the other, or a node on a cycle with it, is left after all
//! nodes on a cycle with the first. So `clearing`, which goes through this order from its end, is fast and clears each
//! node that is on no cycle. No answer rests on that: contracts say nothing of the order, but that each node is among
//! those that lead to what it leads to.

ghost use Rattle.std.specs.Prelude.{◌≡◌, ◌≤◌, length, IfOk, OnOk};
ghost use Rattle.flux_model.specs.declared.programs.TheConstants.{COUNT_LIMIT};
ghost use Rattle.flux_graph.specs.steps.Leaders.{with_leader, LeadsToAll, HaveLeaders};

use crate::steps::{Step, enter_all, enter_below};
use flux_model::{Node, NodeNo, Visits};
use flux_values::{List, Memory};
use std::alloc::Global;

/// How far the search is.
#[derive(Drop)]
struct Leaving {
    steps: List<Step>,
    entered: Visits,
    left: List<NodeNo>,
}

impl Leaving {
    /// Goes from a node to those that lead to it.
    fn enter(&mut self, leaders: &[List<NodeNo>], node: NodeNo) -> Result<(), Memory> {
        self.entered.add(node.0)?;
        self.steps.add(Step::Leave(node))?;
        match leaders.get(node.0 as usize) {
            Some(leaders) => enter_all(&mut self.steps, leaders.as_slice()),
            None => Ok(()),
        }
    }

    /// The next node that hasn't been entered. Nodes with nothing left to enter are left on the way.
    fn next(&mut self) -> Result<Option<NodeNo>, Memory> {
        while let Some(step) = self.steps.pop() {
            match step {
                Step::Leave(node) => self.left.add(node)?,
                Step::Enter(node) => {
                    if !self.entered.has(node.0) {
                        return Ok(Some(node));
                    }
                }
            }
        }
        Ok(None)
    }
}

fn no_leaders(alloc: Global, count: usize) -> Result<Vec<List<NodeNo>>, Memory>
    ensures { IfOk result (λ leaders. length leaders.items ≡ count) }
{
    let mut leaders = Vec::new(alloc);
    for _ in 0..count {
        leaders.push(List::new(alloc))?;
    }
    Ok(leaders)
}

/// Adds a node to those that lead to another, if there is such a one.
fn add_leader(leaders: &mut Vec<List<NodeNo>>, led: NodeNo, node: NodeNo) -> Result<(), Memory>
    ensures { OnOk result
        (leaders.new.items ≡ with_leader leaders.old.items led.0 node) }
{
    let place = led.0 as usize;
    if place < leaders.len() {
        leaders[place].add(node)?;
    }
    Ok(())
}

/// Adds a node to those that lead to each of the nodes that it leads to.
fn add_leader_of_all(
    leaders: &mut Vec<List<NodeNo>>,
    led: &[NodeNo],
    node: NodeNo,
) -> Result<(), Memory>
    ensures { OnOk result (LeadsToAll node led.now leaders.old.items leaders.new.items) }
{
    for number in led {
        add_leader(leaders, *number, node)?;
    }
    Ok(())
}

/// For each node those that lead to it.
fn leaders(alloc: Global, nodes: &[Node]) -> Result<Vec<List<NodeNo>>, Memory>
    requires few { length nodes.now ≤ COUNT_LIMIT }
    ensures { IfOk result (λ leaders. HaveLeaders nodes.now leaders.items) }
{
    let mut leaders = no_leaders(alloc, nodes.len())?;
    for (number, node) in nodes.iter().enumerate() {
        let led = node.leads_to(alloc)?;
        add_leader_of_all(&mut leaders, led.as_slice(), NodeNo(number as u32))?;
    }
    Ok(leaders)
}

/// The nodes, in the order in which the search exits them.
pub fn leaving_order(alloc: Global, nodes: &[Node]) -> Result<List<NodeNo>, Memory>
    requires few { length nodes.now ≤ COUNT_LIMIT }
{
    let leaders = leaders(alloc, nodes)?;
    let mut search = Leaving {
        steps: enter_below(alloc, nodes.len())?,
        entered: Visits::new(alloc),
        left: List::new(alloc),
    };
    // each node is entered once, and in the last turn what is still to be left is left
    for _ in 0..nodes.len() + 1 {
        if let Some(node) = search.next()? {
            search.enter(leaders.as_slice(), node)?;
        }
    }
    Ok(search.left)
}
