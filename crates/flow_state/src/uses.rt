//! Which cells the nodes of a program use: the classes of their keys, worked out once.

ghost use Rattle.std.specs.Prelude.{◌≡◌, IfOk};
ghost use Rattle.std.specs.List.{find};
ghost use Rattle.flow_model.specs.CellsAfter.{is_named};
ghost use Rattle.flow_state.specs.steps.Cells.{declares_named, class_in, classes_by, classes_of, classes_read};

use flux_library::Library;
use flux_model::{Body, ClassNo, Hold, Node, Program};
use flux_values::{CellUse, List, Memory};
use std::alloc::Global;

fn is_named(p: &Program, class: ClassNo, name: &[u8]) -> bool
    ensures { result ≡ declares_named p.now name.now class }
{
    match p.classes.get(class.0 as usize) {
        Some(class) => name == class.name.as_bytes(),
        None => false,
    }
}

/// The class of a name among constraints.
fn class_in(p: &Program, declared: &[Hold], name: &[u8]) -> Option<ClassNo>
    ensures { result ≡ class_in p.now declared.now name.now }
{
    declared
        .iter()
        .find(|hold| is_named(p, hold.class, name))
        .map(|hold| hold.class)
}

/// The classes of the names of uses among constraints, in order.
fn classes_by(
    alloc: Global,
    p: &Program,
    declared: &[Hold],
    uses: &[CellUse],
) -> Result<List<Option<ClassNo>>, Memory>
    ensures { IfOk result (λ classes. classes ≡ classes_by p.now declared.now uses.now) }
{
    let mut classes = List::new(alloc);
    for cell in uses {
        classes.add(class_in(p, declared, cell.name.as_bytes()))?;
    }
    Ok(classes)
}

/// The classes of the cells that a node uses, in order. A node without constraints uses none, and its signature isn't
/// asked for.
fn classes_of<L: Library>(
    alloc: Global,
    library: &L,
    p: &Program,
    node: &Node,
) -> Result<List<Option<ClassNo>>, Memory>
    ensures { IfOk result (λ classes. classes ≡ classes_of (L.meaning library.now) p.now node.now) }
{
    let Body::Concrete(name) = &node.body else {
        return Ok(List::new(alloc));
    };
    if node.declared.is_empty() {
        return Ok(List::new(alloc));
    }
    match library.node(alloc, name.as_bytes())? {
        Some(sig) => classes_by(alloc, p, node.declared.as_slice(), sig.cells.as_slice()),
        None => Ok(List::new(alloc)),
    }
}

/// The classes of the cells that each node uses, node by node.
pub fn classes_read<L: Library>(
    alloc: Global,
    library: &L,
    p: &Program,
) -> Result<List<List<Option<ClassNo>>>, Memory>
    ensures { IfOk result (λ reads. reads ≡ classes_read (L.meaning library.now) p.now) }
{
    let mut reads = List::new(alloc);
    for node in p.nodes.as_slice() {
        reads.add(classes_of(alloc, library, p, node)?)?;
    }
    Ok(reads)
}
