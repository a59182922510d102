//! The names of a program: nodes, found by hash, and classes.

ghost use Rattle.std.specs.Prelude.{◌≡◌, ◌≤◌, ◌↔◌, [], ℕ, IfOk, OnOk, IfSome, IfNone, IsTrue, length};
ghost use Rattle.flux_model.specs.declared.programs.NodeNo.{NodeNo};
ghost use Rattle.flux_model.specs.declared.programs.ClassNo.{ClassNo};
ghost use Rattle.flux_model.specs.declared.programs.TheConstants.{COUNT_LIMIT};
ghost use Rattle.flux_model.specs.Names.{AreNamedApart};
ghost use Rattle.flux_journal.specs.Entries.{IsCellOf};
ghost use Rattle.flux_journal.specs.steps.Named.{names_in, IsNodeNamed, IsClassNamed};

use flux_model::{Class, ClassNo, Names, Node, NodeNo, Program};
use flux_values::{Memory, TextBytes};
use std::alloc::Global;

/// Adds the names of nodes, where there are none yet.
fn add_names<'a>(names: &mut Names<'a>, nodes: &'a [Node]) -> Result<(), Memory>
    requires apart { AreNamedApart nodes.now }
    requires none { names.old ≡ [] }
    ensures { OnOk result (names.new ≡ names_in nodes.now) }
{
    for node in nodes {
        names.add(node.name.as_bytes())?;
    }
    Ok(())
}

/// The names of nodes.
pub fn names_of<'a>(alloc: Global, nodes: &'a [Node]) -> Result<Names<'a>, Memory>
    requires { AreNamedApart nodes.now }
    ensures { IfOk result (λ names. names ≡ names_in nodes.now) }
{
    let mut names = Names::new(alloc);
    add_names(&mut names, nodes)?;
    Ok(names)
}

/// The node of a name.
pub fn find_node(names: &Names, name: &[u8]) -> Option<NodeNo>
    requires { length names.now ≤ COUNT_LIMIT }
    ensures found { IfSome result (IsNodeNamed names.now name.now) }
    ensures none { IfNone result ((node : NodeNo) → IsNodeNamed names.now name.now node → ⊥) }
{
    let place = names.place(name)?;
    Some(NodeNo(place as u32))
}

fn has_name(class: &Class, name: &[u8]) -> bool
    ensures { let its = class.now in IsTrue result ↔ (its.name ≡ name.now) }
{
    class.name.as_bytes() == name
}

/// The class of a name and a scope.
pub fn find_class(program: &Program, session: bool, name: &[u8]) -> Option<ClassNo>
    requires { let p = program.now in length p.classes ≤ COUNT_LIMIT }
    ensures found { IfSome result (IsClassNamed program.now session name.now) }
    ensures none { IfNone result ((class : ClassNo) → IsClassNamed program.now session name.now class
        → ⊥) }
{
    for (place, class) in program.classes.as_slice().iter().enumerate() {
        if class.session == session && has_name(class, name) {
            return Some(ClassNo(place as u32));
        }
    }
    None
}

/// A class's name, found in either scope.
pub fn find_cell<'a>(program: &'a Program, name: &[u8]) -> Option<&'a TextBytes>
    ensures found { IfSome result (λ cell. (cell.now ≡ name.now) × IsCellOf program.now name.now) }
    ensures none { IfNone result (IsCellOf program.now name.now → ⊥) }
{
    for class in program.classes.as_slice() {
        if has_name(class, name) {
            return Some(&class.name);
        }
    }
    None
}
