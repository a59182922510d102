//! The sizes of nodes.
//!
//! A size may be as large as two to the number of nodes, so sizes past the limit are counted as one more than it.

ghost use Rattle.std.specs.Prelude.{◌≡◌, ◌+◌, IfOk, OnOk, replicate};
ghost use Rattle.flux_model.specs.Ordering.{IsOrder};
ghost use Rattle.flux_hoist.specs.Sets.{held_by};
ghost use Rattle.flux_hoist.specs.Counted.{capped, counted_source, size_at, AreCounted};
ghost use Rattle.flux_hoist.specs.steps.Sizing.{own_size, capped_sum, put_size, put_sizes};

use crate::checked::SIZE_LIMIT;
use crate::hoisting::{Sets, holds_of};
use flux_constraints::ClassSet;
use flux_graph::Order;
use flux_model::{Node, NodeNo, Program, SourceLine};
use flux_values::{List, Memory};
use std::alloc::Global;

/// A sum of sizes, where any that is past the limit is one more than it.
pub fn capped_sum(a: u32, b: u32) -> u32
    ensures { result ≡ capped (a + b) }
{
    a.saturating_add(b).min(SIZE_LIMIT + 1)
}

/// The size at a number, and 0 where there is none.
pub(crate) fn size_of(sizes: &[u32], number: usize) -> u32
    ensures { result ≡ size_at sizes.now number }
{
    match sizes.get(number) {
        Some(size) => *size,
        None => 0,
    }
}

/// The size of a node in a list of sizes, and 0 where there is none.
pub fn size_at(sizes: &[u32], node: NodeNo) -> u32
    ensures { result ≡ size_at sizes.now node.0 }
{
    size_of(sizes, node.0 as usize)
}

/// The size of a source line by those of nodes: its target's size, and 1 for the end of the flow.
pub fn source_size(sizes: &[u32], line: &SourceLine) -> u32
    ensures { result ≡ counted_source sizes.now line.now }
{
    capped_sum(size_at(sizes, line.target), 1)
}

/// A size and those of nodes.
fn add_sizes(sizes: &[u32], nodes: &[NodeNo], size: u32) -> u32
    ensures { result ≡ capped_sum sizes.now size nodes.now }
{
    nodes.iter().fold(size, |total, node| capped_sum(total, size_at(sizes, *node)))
}

/// A node's size without the nodes that it leads to: a take and a drop for each class, and 3 more.
fn own_size(sets: &[ClassSet], node: NodeNo) -> u32
    ensures { result ≡ own_size (held_by sets.now) node.0 }
{
    let held = holds_of(sets, node.0 as usize).len();
    if held < SIZE_LIMIT as usize {
        (2 * held as u32 + 3).min(SIZE_LIMIT + 1)
    } else {
        SIZE_LIMIT + 1
    }
}

/// Puts a node's size into its place, once all that it leads to have theirs.
fn put_size(
    alloc: Global,
    nodes: &[Node],
    sets: &[ClassSet],
    sizes: &mut List<u32>,
    number: NodeNo,
) -> Result<(), Memory>
    ensures { OnOk result (sizes.new ≡ put_size (held_by sets.now) nodes.now sizes.old number) }
{
    let Some(node) = nodes.get(number.0 as usize) else {
        return Ok(());
    };
    let led = node.leads_to(alloc)?;
    let size = add_sizes(sizes.as_slice(), led.as_slice(), own_size(sets, number));
    if (number.0 as usize) < sizes.as_slice().len() {
        sizes.set(number.0 as usize, size);
    }
    Ok(())
}

fn zeros(alloc: Global, count: usize) -> Result<List<u32>, Memory>
    ensures { IfOk result (λ sizes. sizes ≡ replicate count 0) }
{
    let mut sizes = List::new(alloc);
    for _ in 0..count {
        sizes.add(0)?;
    }
    Ok(sizes)
}

/// Goes along an order in which each node is after all that it leads to.
pub(crate) fn sizes_along(
    alloc: Global,
    nodes: &[Node],
    sets: &[ClassSet],
    order: &[NodeNo],
) -> Result<List<u32>, Memory>
    ensures { IfOk result (λ sizes. sizes ≡ put_sizes (held_by sets.now) nodes.now order.now) }
{
    let mut sizes = zeros(alloc, nodes.len())?;
    for number in order {
        put_size(alloc, nodes, sets, &mut sizes, *number)?;
    }
    Ok(sizes)
}

/// The size of each node, as it is counted, by its number. The order lists each node of the program once, after all that it
/// leads to; the sets are what the nodes hold.
pub fn node_sizes(
    alloc: Global,
    p: &Program,
    order: &Order,
    sets: &Sets,
) -> Result<List<u32>, Memory>
    requires ordered { IsOrder p.now.nodes order.now.nodes }
    ensures { IfOk result (AreCounted p.now.nodes (held_by sets.now.nodes)) }
{
    sizes_along(
        alloc,
        p.nodes.as_slice(),
        sets.nodes.as_slice(),
        order.nodes.as_slice(),
    )
}
