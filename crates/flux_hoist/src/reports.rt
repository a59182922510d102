//! The report: which classes the locks add to what nodes declare, and which they raise.

ghost use Rattle.std.specs.Prelude.{◌≡◌, ◌<◌, ◌++◌, IfOk, OnOk, codes, length, slice_get};
ghost use Rattle.flux_model.specs.Locks.{AreLocks, AreLocksOf, IsGreatest};
ghost use Rattle.flux_model.specs.Ordering.{IsOrder};
ghost use Rattle.flux_model.specs.Texts.{node_name};
ghost use Rattle.flux_hoist.specs.Printed.{printed_hold};
ghost use Rattle.flux_hoist.specs.Reports.{ArePieces, IsReport, IsSaid};
ghost use Rattle.flux_hoist.specs.Sets.{held_by};
ghost use Rattle.flux_hoist.specs.steps.Appending.{HasGained};
ghost use Rattle.flux_hoist.specs.steps.Declaring.{AreOwn, Knows, table_of};
ghost use Rattle.flux_hoist.specs.steps.Lowest.{AreLowest};

use crate::declarers::Declarers;
use crate::hoisting::{Sets, holds_of};
use crate::printing::{append_hold, node_name};
use flux_graph::Order;
use flux_model::{Hold, Mode, Node, NodeNo, Program};
use flux_values::{Bytes, Memory};
use std::alloc::Global;

/// Adds a line about a class that a node holds.
fn append_line(
    out: &mut Bytes,
    p: &Program,
    node: &Node,
    word: &[u8],
    hold: Hold,
    cause: NodeNo,
) -> Result<(), Memory>
    ensures { OnOk result (out.new ≡ out.old ++ (node.now.name ++ word.now
        ++ printed_hold p.now hold ++ codes " for " ++ node_name p.now cause ++ codes "\n")) }
{
    out.append(node.name.as_bytes())?;
    out.append(word)?;
    append_hold(out, p, hold)?;
    out.append(b" for ")?;
    out.append(node_name(p, cause))?;
    out.append(b"\n")
}

/// Adds what is said of a class that a node holds.
fn append_said(
    out: &mut Bytes,
    p: &Program,
    number: usize,
    hold: Hold,
    declarers: &Declarers,
) -> Result<(), Memory>
    requires within { number < length p.now.nodes }
    requires held { IsGreatest p.now number hold }
    requires own { AreOwn p.now.nodes declarers.now.own }
    requires lowest { AreLowest p.now.nodes hold (table_of declarers.now hold) }
    ensures { OnOk result (HasGained (IsSaid p.now number hold) out.old out.new) }
{
    if declarers.declares(number, hold) {
        return Ok(());
    }
    let read = Hold {
        class: hold.class,
        mode: Mode::Reader,
    };
    let node = &p.nodes.as_slice()[number];
    let Some(cause) = declarers.cause(node, hold) else {
        unreachable!()
    };
    if declarers.declares(number, read) {
        append_line(out, p, node, b" raises ", hold, cause)
    } else {
        append_line(out, p, node, b" adds ", hold, cause)
    }
}

/// Adds what is said of all classes that a node holds.
fn append_all_said(
    out: &mut Bytes,
    p: &Program,
    number: usize,
    holds: &[Hold],
    declarers: &Declarers,
) -> Result<(), Memory>
    requires within { number < length p.now.nodes }
    requires locks { AreLocksOf p.now number holds.now }
    requires known { Knows p.now.nodes holds.now declarers.now }
    ensures { OnOk result
        (HasGained (ArePieces (IsSaid p.now number) holds.now) out.old out.new) }
{
    for hold in holds {
        append_said(out, p, number, *hold, declarers)?;
    }
    Ok(())
}

/// The report on the locks of a program: a line for each class that a node doesn't declare as it holds it, with the
/// lowest-numbered node below that does; and `ok`. The order lists each node of the program once, after all that it leads
/// to; the sets are the program's locks.
pub fn report(alloc: Global, p: &Program, order: &Order, sets: &Sets) -> Result<Bytes, Memory>
    requires ordered { IsOrder p.now.nodes order.now.nodes }
    requires locks { AreLocks p.now (held_by sets.now.nodes) }
    ensures { IfOk result (IsReport p.now (held_by sets.now.nodes)) }
{
    let nodes = p.nodes.as_slice();
    let held = sets.nodes.as_slice();
    let declarers = Declarers::new(alloc, nodes, order.nodes.as_slice(), held)?;
    let mut out = Bytes::new(alloc);
    for number in 0..nodes.len() {
        append_all_said(&mut out, p, number, holds_of(held, number), &declarers)?;
    }
    out.append(b"ok\n")?;
    Ok(out)
}
