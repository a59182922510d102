//! Which nodes declare a class: the lowest-numbered of those that nodes lead on to.
//!
//! For each class and mode one pass along the order fills a table, in time near the number of nodes and of what they lead to.

ghost use Rattle.std.specs.Prelude.{◌≡◌, ℕ, ◌<◌, ◌≤◌, ◌^◌, ◌↔◌, [], IfOk, IsTrue, None, fold, length};
ghost use Rattle.std.specs.List.{Contains};
ghost use Rattle.flux_model.specs.declared.programs.Hold.{Hold};
ghost use Rattle.flux_model.specs.Leading.{members_of, handlers_of, leads_to};
ghost use Rattle.flux_model.specs.Ordering.{IsOrder};
ghost use Rattle.flux_model.specs.Locks.{HasAtLeast};
ghost use Rattle.flux_hoist.specs.Sets.{held_by};
ghost use Rattle.flux_hoist.specs.steps.Joining.{AreJoined};
ghost use Rattle.flux_hoist.specs.steps.Lowest.{lower, node_at, lowest_among, AreLowest};
ghost use Rattle.flux_hoist.specs.steps.Declaring.{AreOwn, IsClassCount, AreTables, HasTables, KnowsAll, table_at, table_of};

use crate::hoisting::join_holds;
use flux_constraints::ClassSet;
use flux_model::{Body, Case, ClassNo, HandleArm, Hold, Mode, Node, NodeNo};
use flux_values::{List, Memory};
use std::alloc::Global;

/// What nodes declare, and for each class, by its number, a table that has for each node the lowest-numbered node that
/// declares the class, of the node itself and all that it leads on to; `readers` in any mode, `writers` as a writer.
#[derive(Drop)]
pub(crate) struct Declarers {
    pub own: List<ClassSet>,
    pub readers: List<List<Option<NodeNo>>>,
    pub writers: List<List<Option<NodeNo>>>,
}

/// Of two nodes the lower one.
fn lower(node: Option<NodeNo>, other: Option<NodeNo>) -> Option<NodeNo>
    ensures { result ≡ lower node other }
{
    match (node, other) {
        (Some(first), Some(second)) => Some(if second.0 < first.0 { second } else { first }),
        (Some(_), None) => node,
        (None, _) => other,
    }
}

fn node_at(table: &[Option<NodeNo>], node: NodeNo) -> Option<NodeNo>
    ensures { result ≡ node_at table.now node.0 }
{
    match table.get(node.0 as usize) {
        Some(found) => *found,
        None => None,
    }
}

/// The lowest of a node and those that a table has for others.
fn lowest_among(table: &[Option<NodeNo>], first: Option<NodeNo>, nodes: &[NodeNo]) -> Option<NodeNo>
    ensures { result ≡ lowest_among table.now first nodes.now }
{
    nodes
        .iter()
        .fold(first, |found, node| lower(found, node_at(table, *node)))
}

fn lowest_in_cases(
    table: &[Option<NodeNo>],
    first: Option<NodeNo>,
    cases: &[Case],
) -> Option<NodeNo>
    ensures { result
        ≡ fold (λ found case. lowest_among table.now found case.members) first cases.now }
{
    cases.iter().fold(first, |found, case| {
        lowest_among(table, found, case.members.as_slice())
    })
}

/// The lowest of a node and those that a table has for members.
fn lowest_member(table: &[Option<NodeNo>], first: Option<NodeNo>, body: &Body) -> Option<NodeNo>
    ensures { result ≡ lowest_among table.now first (members_of body.now) }
{
    match body {
        Body::Concrete(_) => first,
        Body::Abstract(cases) => lowest_in_cases(table, first, cases.as_slice()),
    }
}

fn lowest_handler(
    table: &[Option<NodeNo>],
    first: Option<NodeNo>,
    arms: &[HandleArm],
) -> Option<NodeNo>
    ensures { result ≡ lowest_among table.now first (handlers_of arms.now) }
{
    arms.iter()
        .fold(first, |found, arm| lower(found, node_at(table, arm.node)))
}

/// The lowest of a node and those that a table has for what another leads to.
fn lowest_led(table: &[Option<NodeNo>], first: Option<NodeNo>, node: &Node) -> Option<NodeNo>
    ensures { result ≡ lowest_among table.now first (leads_to node.now) }
{
    let found = lowest_member(table, first, &node.body);
    lowest_handler(table, found, node.on_fail.as_slice())
}

fn no_nodes(alloc: Global, count: usize) -> Result<List<Option<NodeNo>>, Memory>
    ensures { IfOk result (λ table. length table ≡ count) }
{
    let mut table = List::new(alloc);
    for _ in 0..count {
        table.add(None)?;
    }
    Ok(table)
}

fn declared_set(alloc: Global, node: &Node) -> Result<ClassSet, Memory>
    ensures { IfOk result (AreJoined [] node.now.declared) }
{
    let mut set = ClassSet::new(alloc);
    join_holds(&mut set, node.declared.as_slice())?;
    Ok(set)
}

fn declared_sets(alloc: Global, nodes: &[Node]) -> Result<List<ClassSet>, Memory>
    ensures { IfOk result (AreOwn nodes.now) }
{
    let mut sets = List::new(alloc);
    for node in nodes {
        sets.add(declared_set(alloc, node)?)?;
    }
    Ok(sets)
}

/// Whether the set at a number has a class in at least this mode.
fn covers(sets: &[ClassSet], number: usize, hold: Hold) -> bool
    ensures { IsTrue result ↔ HasAtLeast (held_by sets.now number) hold }
{
    match sets.get(number) {
        Some(set) => set.covers(hold),
        None => false,
    }
}

/// For each node the lowest-numbered that declares a class in at least this mode, of the node itself and all that it leads
/// on to.
fn lowest_declaring(
    alloc: Global,
    nodes: &[Node],
    own: &[ClassSet],
    order: &[NodeNo],
    hold: Hold,
) -> Result<List<Option<NodeNo>>, Memory>
    requires ordered { IsOrder nodes.now order.now }
    requires own { AreOwn nodes.now own.now }
    ensures { IfOk result (AreLowest nodes.now hold) }
{
    let mut table = no_nodes(alloc, nodes.len())?;
    for number in order {
        let place = number.0 as usize;
        let first = covers(own, place, hold).then_some(*number);
        let found = lowest_led(table.as_slice(), first, &nodes[place]);
        table.set(place, found);
    }
    Ok(table)
}

/// The tables of the classes below a count, in one mode.
fn tables(
    alloc: Global,
    nodes: &[Node],
    own: &[ClassSet],
    order: &[NodeNo],
    mode: Mode,
    count: usize,
) -> Result<List<List<Option<NodeNo>>>, Memory>
    requires ordered { IsOrder nodes.now order.now }
    requires own { AreOwn nodes.now own.now }
    requires few { count ≤ 2 ^ 32 }
    ensures tables { IfOk result (AreTables nodes.now mode count) }
    ensures many { IfOk result (λ tables. length tables ≡ count) }
{
    let mut tables = List::new(alloc);
    for number in 0..count {
        let class = ClassNo(number as u32);
        tables.add(lowest_declaring(alloc, nodes, own, order, Hold { class, mode })?)?;
    }
    Ok(tables)
}

/// One more than the number of a set's greatest class, and 0 for the empty set.
fn past_greatest(set: &ClassSet) -> usize
    ensures all { (hold : Hold) → Contains set.now hold → hold.class.0 < result }
    ensures least { (other : ℕ) → ((hold : Hold) → Contains set.now hold → hold.class.0 < other)
        → result ≤ other }
    ensures few { result ≤ 2 ^ 32 }
{
    match set.greatest() {
        Some(class) => class.0 as usize + 1,
        None => 0,
    }
}

/// How many classes there are up to the greatest that a set has.
fn class_count(sets: &[ClassSet]) -> usize
    ensures count { IsClassCount sets.now result }
    ensures few { result ≤ 2 ^ 32 }
{
    let mut count = 0;
    for set in sets {
        let past = past_greatest(set);
        if count < past {
            count = past;
        }
    }
    count
}

impl Declarers {
    /// What is to be looked up for nodes that hold these sets.
    pub fn new(
        alloc: Global,
        nodes: &[Node],
        order: &[NodeNo],
        sets: &[ClassSet],
    ) -> Result<Declarers, Memory>
        requires ordered { IsOrder nodes.now order.now }
        ensures known { IfOk result (KnowsAll nodes.now sets.now) }
        ensures tables { IfOk result (HasTables sets.now) }
    {
        let count = class_count(sets);
        let own = declared_sets(alloc, nodes)?;
        let readers = tables(alloc, nodes, own.as_slice(), order, Mode::Reader, count)?;
        let writers = tables(alloc, nodes, own.as_slice(), order, Mode::Writer, count)?;
        Ok(Declarers {
            own,
            readers,
            writers,
        })
    }

    /// Whether the node of a number declares a class in at least this mode.
    pub fn declares(&self, number: usize, hold: Hold) -> bool
        ensures { IsTrue result ↔ HasAtLeast (held_by self.now.own number) hold }
    {
        covers(self.own.as_slice(), number, hold)
    }

    /// The lowest-numbered node that declares a class in at least this mode, of a node's members and all that they lead on to.
    pub fn cause(&self, node: &Node, hold: Hold) -> Option<NodeNo>
        ensures { let table = table_of self.now hold in
            result ≡ lowest_among table None (members_of node.now.body) }
    {
        let tables = match hold.mode {
            Mode::Reader => &self.readers,
            Mode::Writer => &self.writers,
        };
        lowest_member(table_at(tables.as_slice(), hold.class), None, &node.body)
    }
}

fn table_at(tables: &[List<Option<NodeNo>>], class: ClassNo) -> &[Option<NodeNo>]
    ensures { result.now ≡ table_at tables.now class }
{
    match tables.get(class.0 as usize) {
        Some(table) => table.as_slice(),
        None => &[],
    }
}
