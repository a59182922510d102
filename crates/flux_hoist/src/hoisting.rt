//! What nodes hold.

ghost use Rattle.std.specs.Prelude.{◌≡◌, ◌++◌, [], IfOk, OnOk, length};
ghost use Rattle.flux_model.specs.Leading.{members_of, leads_to};
ghost use Rattle.flux_model.specs.Ordering.{IsOrder};
ghost use Rattle.flux_model.specs.Locks.{AreLocks};
ghost use Rattle.flux_hoist.specs.Sets.{held_by};
ghost use Rattle.flux_hoist.specs.steps.Joining.{AreJoined, IsHoisted, held_by_all, held_by_cases};
ghost use Rattle.flux_hoist.specs.steps.Reaching.{AreReached, AreHoisted};

use flux_constraints::ClassSet;
use flux_graph::Order;
use flux_model::{Body, Case, Hold, Node, NodeNo, Program};
use flux_values::{List, Memory};
use std::alloc::Global;

/// What each node holds, by its number.
pub struct Sets {
    pub nodes: List<ClassSet>,
}

impl Drop for Sets {
    fn drop(self) {
        let Sets { nodes } = self;
    }
}

pub(crate) fn join_holds(set: &mut ClassSet, holds: &[Hold]) -> Result<(), Memory>
    ensures { OnOk result (AreJoined set.old holds.now set.new) }
{
    for hold in holds {
        set.join(*hold)?;
    }
    Ok(())
}

/// The holds of the set at a number, and none where there is no such set.
pub(crate) fn holds_of(sets: &[ClassSet], number: usize) -> &[Hold]
    ensures { result.now ≡ held_by sets.now number }
{
    match sets.get(number) {
        Some(set) => set.as_slice(),
        None => &[],
    }
}

fn join_nodes(set: &mut ClassSet, table: &[ClassSet], nodes: &[NodeNo]) -> Result<(), Memory>
    ensures { OnOk result (AreJoined set.old (held_by_all table.now nodes.now) set.new) }
{
    for node in nodes {
        join_holds(set, holds_of(table, node.0 as usize))?;
    }
    Ok(())
}

fn join_cases(set: &mut ClassSet, table: &[ClassSet], cases: &[Case]) -> Result<(), Memory>
    ensures { OnOk result (AreJoined set.old (held_by_cases table.now cases.now) set.new) }
{
    for case in cases {
        join_nodes(set, table, case.members.as_slice())?;
    }
    Ok(())
}

fn join_members(set: &mut ClassSet, table: &[ClassSet], body: &Body) -> Result<(), Memory>
    ensures { OnOk result
        (AreJoined set.old (held_by_all table.now (members_of body.now)) set.new) }
{
    match body {
        Body::Concrete(_) => Ok(()),
        Body::Abstract(cases) => join_cases(set, table, cases.as_slice()),
    }
}

/// What a node declares, and what it leads to has in a table.
fn reached_by(alloc: Global, table: &[ClassSet], node: &Node) -> Result<ClassSet, Memory>
    ensures { IfOk result (AreJoined []
        (node.now.declared ++ held_by_all table.now (leads_to node.now))) }
{
    let mut set = ClassSet::new(alloc);
    join_holds(&mut set, node.declared.as_slice())?;
    let led = node.leads_to(alloc)?;
    join_nodes(&mut set, table, led.as_slice())?;
    Ok(set)
}

fn empty_sets(alloc: Global, count: usize) -> Result<List<ClassSet>, Memory>
    ensures { IfOk result (λ sets. length sets ≡ count) }
{
    let mut sets = List::new(alloc);
    for _ in 0..count {
        sets.add(ClassSet::new(alloc))?;
    }
    Ok(sets)
}

/// For each node what it and all that it leads on to declare. Each node's set is joined from those of the nodes that it
/// leads to, which are before it in the order.
fn reached(alloc: Global, nodes: &[Node], order: &[NodeNo]) -> Result<List<ClassSet>, Memory>
    requires ordered { IsOrder nodes.now order.now }
    ensures { IfOk result (AreReached nodes.now) }
{
    let mut table = empty_sets(alloc, nodes.len())?;
    for number in order {
        let set = reached_by(alloc, table.as_slice(), &nodes[number.0 as usize])?;
        table.set(number.0 as usize, set);
    }
    Ok(table)
}

/// What a node declares, and of what its members reach the classes that are at most the greatest that it declares.
fn locks_of(alloc: Global, table: &[ClassSet], node: &Node) -> Result<ClassSet, Memory>
    ensures { IfOk result (IsHoisted node.now.declared
        (held_by_all table.now (members_of node.now.body))) }
{
    let mut locks = ClassSet::new(alloc);
    join_holds(&mut locks, node.declared.as_slice())?;
    let Some(greatest) = locks.greatest() else {
        return Ok(locks);
    };
    let mut below = ClassSet::new(alloc);
    join_members(&mut below, table, &node.body)?;
    let lower = below.up_to(alloc, greatest)?;
    join_holds(&mut locks, lower.as_slice())?;
    Ok(locks)
}

fn all_locks(alloc: Global, table: &[ClassSet], nodes: &[Node]) -> Result<List<ClassSet>, Memory>
    ensures { IfOk result (AreHoisted nodes.now table.now (length nodes.now)) }
{
    let mut sets = List::new(alloc);
    for node in nodes {
        sets.add(locks_of(alloc, table, node)?)?;
    }
    Ok(sets)
}

/// What each node holds: the least closed sets that have what the nodes declare. The order lists each node of the
/// program once, after all that it leads to.
pub fn hoist(alloc: Global, p: &Program, order: &Order) -> Result<Sets, Memory>
    requires ordered { IsOrder p.now.nodes order.now.nodes }
    ensures { IfOk result (λ sets. AreLocks p.now (held_by sets.nodes)) }
{
    let nodes = p.nodes.as_slice();
    let table = reached(alloc, nodes, order.nodes.as_slice())?;
    Ok(Sets {
        nodes: all_locks(alloc, table.as_slice(), nodes)?,
    })
}
