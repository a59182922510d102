//! Locks: what a node declares, and what nodes below it declare on classes that aren't above its greatest.

use flux_model::{Body, ClassNo, Hold, Mode, Node, NodeNo, Program};
use flux_values::Memory;
use std::alloc::Global;

fn mark(marks: &mut [bool], node: NodeNo) {
    if let Some(mark) = marks.get_mut(node.0 as usize) {
        *mark = true;
    }
}

fn mark_all(marks: &mut [bool], nodes: &[NodeNo]) {
    for node in nodes {
        mark(marks, *node);
    }
}

fn mark_members(marks: &mut [bool], node: &Node) {
    if let Body::Abstract(cases) = &node.body {
        for case in cases.as_slice() {
            mark_all(marks, case.members.as_slice());
        }
    }
}

fn mark_handlers(marks: &mut [bool], node: &Node) {
    for arm in node.on_fail.as_slice() {
        mark(marks, arm.node);
    }
}

/// Marks the members and the handlers of the nodes that are marked.
fn mark_more(marks: &mut [bool], nodes: &[Node]) {
    for (place, node) in nodes.iter().enumerate() {
        if marks.get(place).copied() == Some(true) {
            mark_members(marks, node);
            mark_handlers(marks, node);
        }
    }
}

/// No marks.
fn no_marks(alloc: Global, nodes: &[Node]) -> Result<Vec<bool>, Memory> {
    let mut marks = Vec::new(alloc);
    for _ in nodes {
        marks.push(false)?;
    }
    Ok(marks)
}

/// Which nodes are below a node.
fn below(alloc: Global, nodes: &[Node], node: &Node) -> Result<Vec<bool>, Memory> {
    let mut marks = no_marks(alloc, nodes)?;
    mark_members(marks.as_mut_slice(), node);
    for _ in nodes {
        mark_more(marks.as_mut_slice(), nodes);
    }
    Ok(marks)
}

fn greater(a: Option<Mode>, b: Option<Mode>) -> Option<Mode> {
    match a {
        None => b,
        Some(Mode::Writer) => a,
        Some(Mode::Reader) => b.or(a),
    }
}

/// How a node declares a class.
fn declared_by(node: &Node, class: ClassNo) -> Option<Mode> {
    let mut mode = None;
    for hold in node.declared.as_slice() {
        if hold.class == class {
            mode = greater(mode, Some(hold.mode));
        }
    }
    mode
}

/// How a node and the marked ones declare a class.
fn declared_by_all(nodes: &[Node], node: &Node, marks: &[bool], class: ClassNo) -> Option<Mode> {
    let mut mode = declared_by(node, class);
    for (other, is_below) in nodes.iter().zip(marks.iter()) {
        if *is_below {
            mode = greater(mode, declared_by(other, class));
        }
    }
    mode
}

/// One more than the greatest class that a node declares, or 0.
fn class_count(node: &Node) -> u32 {
    let mut count: u32 = 0;
    for hold in node.declared.as_slice() {
        count = count.max(hold.class.0.saturating_add(1));
    }
    count
}

/// The locks of a node, in the order of classes.
fn locks_of(alloc: Global, nodes: &[Node], node: &Node) -> Result<Vec<Hold>, Memory> {
    let mut locks = Vec::new(alloc);
    let marks = below(alloc, nodes, node)?;
    for number in 0..class_count(node) {
        let class = ClassNo(number);
        if let Some(mode) = declared_by_all(nodes, node, marks.as_slice(), class) {
            locks.push(Hold { class, mode })?;
        }
    }
    Ok(locks)
}

/// The locks of each node.
pub fn locks_in(alloc: Global, program: &Program) -> Result<Vec<Vec<Hold>>, Memory> {
    let nodes = program.nodes.as_slice();
    let mut locks = Vec::new(alloc);
    for node in nodes {
        locks.push(locks_of(alloc, nodes, node)?)?;
    }
    Ok(locks)
}
