//! An order of a program's nodes, or a cycle.

ghost use Rattle.std.specs.Prelude.{◌≡◌, ◌≤◌, OnOk, IfOk, IfErr};
ghost use Rattle.flux_model.specs.declared.programs.TheConstants.{COUNT_LIMIT};
ghost use Rattle.flux_model.specs.Numbered.{IsNumbered};
ghost use Rattle.flux_model.specs.Ordering.{IsOrder, HasCycle};
ghost use Rattle.flux_graph.specs.declared.ordering.Stop.TheVariants as stops;
ghost use Rattle.flux_graph.specs.Faults.{IsFault};
ghost use Rattle.flux_graph.specs.steps.Stops.{IsCyclic};
ghost use Rattle.flux_graph.specs.steps.Search.{IsBegun, left, entered, Holds, IsNext};

use crate::orders::{GraphFault, Order};
use crate::returning::lowest_cycle;
use crate::steps::{Step, enter_all, enter_below, leads_in};
use flux_model::{Node, NodeNo, Program, Visits};
use flux_values::{List, Memory};
use std::alloc::Global;

/// Why a search gives no order.
enum Stop {
    Cycle,
    Memory,
}

impl From<Memory> for Stop {
    ghost from_gives = { λ _ stop. stop ≡ stops.Memory };

    fn from(_memory: Memory) -> Stop {
        Stop::Memory
    }
}

/// How far a search is.
#[derive(Drop)]
struct Search {
    steps: List<Step>,
    entered: Visits,
    done: Visits,
    order: List<NodeNo>,
}

impl Search {
    /// All nodes are still to be entered.
    fn begin(alloc: Global, count: usize) -> Result<Search, Memory>
        requires few { count ≤ COUNT_LIMIT }
        ensures { IfOk result (IsBegun count) }
    {
        Ok(Search {
            steps: enter_below(alloc, count)?,
            entered: Visits::new(alloc),
            done: Visits::new(alloc),
            order: List::new(alloc),
        })
    }

    fn leave(&mut self, node: NodeNo) -> Result<(), Memory>
        ensures { OnOk result (self.new ≡ left self.old node) }
    {
        self.done.add(node.0)?;
        self.order.add(node)
    }

    fn enter(&mut self, alloc: Global, nodes: &[Node], node: NodeNo) -> Result<(), Memory>
        ensures { OnOk result (self.new ≡ entered nodes.now self.old node) }
    {
        self.entered.add(node.0)?;
        self.steps.add(Step::Leave(node))?;
        enter_all(&mut self.steps, leads_in(alloc, nodes, node)?.as_slice())
    }

    /// The next node that is to be entered. Nodes with nothing left to enter are left on the way.
    fn next(&mut self, nodes: &[Node]) -> Result<Option<NodeNo>, Stop>
        ensures found { Holds nodes.now self.old
            → IfOk result (IsNext nodes.now self.old self.new) }
        ensures cycle { Holds nodes.now self.old → IfErr result (IsCyclic nodes.now) }
    {
        while let Some(step) = self.steps.pop() {
            match step {
                Step::Leave(node) => self.leave(node)?,
                Step::Enter(node) => {
                    if !self.entered.has(node.0) {
                        return Ok(Some(node));
                    }
                    if !self.done.has(node.0) {
                        return Err(Stop::Cycle);
                    }
                }
            }
        }
        Ok(None)
    }
}

/// Each node once, after all that it leads to, or some cycle.
fn order_or_cycle(alloc: Global, p: &Program) -> Result<Order, Stop>
    requires numbered { IsNumbered p.now }
    ensures ordered { IfOk result (λ order. IsOrder p.now.nodes order.nodes) }
    ensures no_cycle { IfOk result (λ order. HasCycle p.now.nodes → ⊥) }
    ensures cycle { IfErr result (IsCyclic p.now.nodes) }
{
    let nodes = p.nodes.as_slice();
    let mut search = Search::begin(alloc, nodes.len())?;
    while let Some(node) = search.next(nodes)? {
        search.enter(alloc, nodes, node)?;
    }
    Ok(Order {
        nodes: search.order,
    })
}

/// Each node once, after all that it leads to, or a cycle. The cycle is one through the lowest-numbered node that is on
/// any cycle.
pub fn order(alloc: Global, p: &Program) -> Result<Order, GraphFault>
    requires numbered { IsNumbered p.now }
    ensures ordered { IfOk result (λ order. IsOrder p.now.nodes order.nodes) }
    ensures no_cycle { IfOk result (λ order. HasCycle p.now.nodes → ⊥) }
    ensures cycle { IfErr result (IsFault p.now.nodes) }
{
    match order_or_cycle(alloc, p) {
        Ok(order) => Ok(order),
        Err(Stop::Memory) => Err(GraphFault::Memory),
        Err(Stop::Cycle) => Err(GraphFault::Cycle {
            path: lowest_cycle(alloc, p.nodes.as_slice())?,
        }),
    }
}
