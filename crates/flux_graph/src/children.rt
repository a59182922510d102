//! What is below a node.

ghost use Rattle.std.specs.Prelude.{◌≡◌, ◌≤◌, ◌<◌, length, OnOk, IfOk};
ghost use Rattle.std.specs.List.{flat_map};
ghost use Rattle.flux_model.specs.declared.programs.TheConstants.{COUNT_LIMIT};
ghost use Rattle.flux_model.specs.Leading.{members_of};
ghost use Rattle.flux_model.specs.Numbered.{IsNumbered};
ghost use Rattle.flux_model.specs.Ordering.{IsOrder};
ghost use Rattle.flux_graph.specs.Below.{AreBelow};
ghost use Rattle.flux_model.specs.Visits.{with_all};
ghost use Rattle.flux_graph.specs.steps.Descending.{Has, among};

use crate::orders::Order;
use crate::steps::leads_in;
use flux_model::{Body, Case, NodeNo, Program, Visits};
use flux_values::{List, Memory};
use std::alloc::Global;

fn visit_cases(visits: &mut Visits, cases: &[Case]) -> Result<(), Memory>
    ensures { OnOk result
        (visits.new ≡ with_all visits.old (flat_map (λ case. case.members) cases.now)) }
{
    for case in cases {
        visits.add_all(case.members.as_slice())?;
    }
    Ok(())
}

/// Visits the members of a node's cases.
fn visit_members(visits: &mut Visits, body: &Body) -> Result<(), Memory>
    ensures { OnOk result (visits.new ≡ with_all visits.old (members_of body.now)) }
{
    match body {
        Body::Concrete(_) => Ok(()),
        Body::Abstract(cases) => visit_cases(visits, cases.as_slice()),
    }
}

/// All that is below a node. The order is gone through from its end, so that what a node leads to comes after the node.
fn descend(alloc: Global, p: &Program, order: &[NodeNo], top: NodeNo) -> Result<Visits, Memory>
    requires ordered { IsOrder p.now.nodes order.now }
    requires is_node { top.0 < length p.now.nodes }
    ensures { IfOk result (Has p.now top.0) }
{
    let nodes = p.nodes.as_slice();
    let mut visits = Visits::new(alloc);
    visit_members(&mut visits, &nodes[top.0 as usize].body)?;
    for node in order.iter().rev() {
        if visits.has(node.0) {
            visits.add_all(leads_in(alloc, nodes, *node)?.as_slice())?;
        }
    }
    Ok(visits)
}

/// The numbers below a count that were visited, in rising order.
fn rising(alloc: Global, visits: &Visits, count: usize) -> Result<List<NodeNo>, Memory>
    requires few { count ≤ COUNT_LIMIT }
    ensures { IfOk result (λ nodes. nodes ≡ among visits.now count) }
{
    let mut nodes = List::new(alloc);
    for number in 0..count {
        if visits.has(number as u32) {
            nodes.add(NodeNo(number as u32))?;
        }
    }
    Ok(nodes)
}

/// All that is below a node, in rising order: its members, and the members and handlers of what is below.
pub fn below(
    alloc: Global,
    p: &Program,
    order: &Order,
    node: NodeNo,
) -> Result<List<NodeNo>, Memory>
    requires numbered { IsNumbered p.now }
    requires ordered { IsOrder p.now.nodes order.now.nodes }
    requires is_node { node.0 < length p.now.nodes }
    ensures { IfOk result (AreBelow p.now node.0) }
{
    let visits = descend(alloc, p, order.nodes.as_slice(), node)?;
    rising(alloc, &visits, p.nodes.len())
}
