//! What is below the nodes of a small text.

ghost use Rattle.std.specs.Prelude.{IfOk};
ghost use Rattle.flux_model.specs.Ordering.{IsOrder};
ghost use Rattle.flux_model.specs.Numbered.{IsNumbered};

use flux_graph::{Order, below, order};
use flux_model::{Named, NodeNo, Program};
use flux_names::resolve;
use flux_syntax::read;
use flux_values::Memory;
use nodes_counter::Counter;
use std::alloc::Global;
use std::test::Fail;

/// Nodes are numbered by the letters of their names.
const TEXT: &[u8] =
    b"typedef zero IsZero; A:[zero] = B; A:[_] = E; handle error A => G; B = ; handle error B:(12) => D; handle error B => C; C = F; D = ; handle error D => H; E = ; F = ; G = ; H = ;";

/// A digit for each node, and after it those of the nodes below.
const BELOW: &str = "0123457 1 25 3 4 7";

/// The program of a text whose names are right.
fn named_of(alloc: Global, text: &[u8]) -> Result<Named, Fail>
    ensures { IfOk result (λ named. IsNumbered named.program) }
{
    let Ok(decls) = read(alloc, text) else {
        return Err(Fail::from("no declarations"));
    };
    let Ok(named) = resolve(alloc, &decls, &Counter) else {
        return Err(Fail::from("names that don't resolve"));
    };
    Ok(named)
}

/// Whether nodes have the numbers that digits tell.
fn are_nodes(nodes: &[NodeNo], digits: &[u8]) -> bool {
    if nodes.len() != digits.len() {
        return false;
    }
    for (node, digit) in nodes.iter().zip(digits) {
        if node.0 != u32::from(digit.saturating_sub(b'0')) {
            return false;
        }
    }
    true
}

/// Whether below the node of the first digit are those of the others.
fn is_right(alloc: Global, p: &Program, order: &Order, row: &[u8]) -> Result<bool, Memory>
    requires numbered { IsNumbered p.now }
    requires ordered { IsOrder p.now.nodes order.now.nodes }
{
    let [first, rest @ ..] = row else {
        return Ok(false);
    };
    let node = u32::from(first.saturating_sub(b'0'));
    if node as usize >= p.nodes.len() {
        return Ok(false);
    }
    let found = below(alloc, p, order, NodeNo(node))?;
    Ok(are_nodes(found.as_slice(), rest))
}

#[test]
fn below_a_node_are_its_members_and_what_these_lead_to(rt: HostRuntime) -> Result<(), Fail> {
    let alloc = rt.alloc();
    let named = named_of(alloc, TEXT)?;
    let Ok(order) = order(alloc, &named.program) else {
        return Err(Fail::from("no order"));
    };
    for row in BELOW.split(' ') {
        assert!(rt;
            is_right(alloc, &named.program, &order, row.as_bytes())?,
            "{row}"
        );
    }
    Ok(())
}
