//! The steps of a search in depth. They are in a list, so a long chain of nodes takes no room of the machine's stack.

ghost use Rattle.std.specs.Prelude.{◌≡◌, ◌≤◌, ◌++◌, OnOk, IfOk};
ghost use Rattle.flux_model.specs.declared.programs.TheConstants.{COUNT_LIMIT};
ghost use Rattle.flux_model.specs.Leading.{leads_in};
ghost use Rattle.flux_graph.specs.steps.Searching.{enters, leaves_of, numbered};

use flux_model::{Node, NodeNo};
use flux_values::{List, Memory};
use std::alloc::Global;

/// What is still to be done with a node.
#[derive(Clone, Copy)]
pub enum Step {
    Enter(NodeNo),
    Leave(NodeNo),
}

/// What the node of a number leads to.
pub fn leads_in(alloc: Global, nodes: &[Node], node: NodeNo) -> Result<List<NodeNo>, Memory>
    ensures { IfOk result (λ led. led ≡ leads_in nodes.now node.0) }
{
    match nodes.get(node.0 as usize) {
        Some(node) => node.leads_to(alloc),
        None => Ok(List::new(alloc)),
    }
}

/// Steps into all nodes below a count.
pub fn enter_below(alloc: Global, count: usize) -> Result<List<Step>, Memory>
    requires few { count ≤ COUNT_LIMIT }
    ensures { IfOk result (λ steps. steps ≡ enters (numbered count)) }
{
    let mut steps = List::new(alloc);
    for number in 0..count {
        steps.add(Step::Enter(NodeNo(number as u32)))?;
    }
    Ok(steps)
}

/// Steps into nodes.
pub fn enter_all(steps: &mut List<Step>, nodes: &[NodeNo]) -> Result<(), Memory>
    ensures { OnOk result (steps.new ≡ steps.old ++ enters nodes.now) }
{
    for node in nodes {
        steps.add(Step::Enter(*node))?;
    }
    Ok(())
}

/// The nodes that have been entered and not been left.
pub fn leaves(alloc: Global, steps: &[Step]) -> Result<List<NodeNo>, Memory>
    ensures { IfOk result (λ leaves. leaves ≡ leaves_of steps.now) }
{
    let mut leaves = List::new(alloc);
    for step in steps {
        if let Step::Leave(node) = step {
            leaves.add(*node)?;
        }
    }
    Ok(leaves)
}
