//! The constraints of a node, joined.

ghost use Rattle.std.specs.Prelude.{◌≡◌, ◌<◌, None, length, map, replicate, IfOk};
ghost use Rattle.std.specs.List.{flat_map};
ghost use Rattle.std.specs.List.Sorted.{IsStrictlySortedBy};
ghost use Rattle.flux_model.specs.Modes.{class_cmp};
ghost use Rattle.flux_syntax.specs.ProgramOfText.{class_of, constraints_of};
ghost use Rattle.flux_names.specs.steps.Classes.{IsPlaceOf, with_mode, with_constraint, with_constraints, holds_of};
ghost use Rattle.flux_names.specs.steps.Nodes.{lines_now, no_modes};

use flux_model::{Class, ClassNo, Hold};
use flux_syntax::{Constraint, Decl};
use flux_values::{List, Memory, Mode};
use std::alloc::Global;
use std::cmp::Ordering;

fn compare(class: &Class, constraint: &Constraint) -> Ordering
    ensures { result ≡ class_cmp class.now (class_of constraint.now) }
{
    let name = class.name.as_bytes().cmp(constraint.name.text.as_bytes());
    name.then(class.session.cmp(&constraint.session))
}

/// Where the class of a constraint is.
fn find_place(classes: &[Class], constraint: &Constraint) -> Result<usize, usize>
    requires { IsStrictlySortedBy class_cmp classes.now }
    ensures { IsPlaceOf classes.now constraint.now result }
{
    classes.binary_search_by(|class| compare(class, constraint))
}

/// A mode with one more: the writer wins.
fn with_mode(mode: Option<Mode>, other: Mode) -> Option<Mode>
    ensures { result ≡ with_mode mode other }
{
    match mode {
        Some(Mode::Writer) => Some(Mode::Writer),
        Some(Mode::Reader) | None => Some(other),
    }
}

fn join(classes: &[Class], constraint: &Constraint, modes: &mut Vec<Option<Mode>>)
    requires order { IsStrictlySortedBy class_cmp classes.now }
    requires each { length modes.old.items ≡ length classes.now }
    ensures { modes.new.items ≡ with_constraint constraint.now classes.now modes.old.items }
{
    match find_place(classes, constraint) {
        Ok(place) => modes[place] = with_mode(modes[place], constraint.mode),
        Err(_) => {}
    }
}

fn join_all(classes: &[Class], constraints: &[Constraint], modes: &mut Vec<Option<Mode>>)
    requires order { IsStrictlySortedBy class_cmp classes.now }
    requires each { length modes.old.items ≡ length classes.now }
    ensures { modes.new.items ≡ with_constraints constraints.now classes.now modes.old.items }
{
    for constraint in constraints {
        join(classes, constraint, modes);
    }
}

fn join_line(classes: &[Class], line: &Decl, modes: &mut Vec<Option<Mode>>)
    requires order { IsStrictlySortedBy class_cmp classes.now }
    requires each { length modes.old.items ≡ length classes.now }
    ensures { modes.new.items ≡
        with_constraints (constraints_of line.now) classes.now modes.old.items }
{
    match line {
        Decl::Atomic { constraints, .. } => join_all(classes, constraints.as_slice(), modes),
        _ => {}
    }
}

fn without_modes(alloc: Global, count: usize) -> Result<Vec<Option<Mode>>, Memory>
    ensures { IfOk result (λ modes. modes.items ≡ replicate count None) }
{
    let mut modes = Vec::new(alloc);
    for _number in 0..count {
        modes.push(None)?;
    }
    Ok(modes)
}

fn holds_of(alloc: Global, modes: &[Option<Mode>]) -> Result<List<Hold>, Memory>
    requires { length modes.now < 4294967296 }
    ensures { IfOk result (λ holds. holds ≡ holds_of modes.now) }
{
    let mut holds = List::new(alloc);
    for (number, mode) in modes.iter().enumerate() {
        if let Some(mode) = mode {
            holds.add(Hold {
                class: ClassNo(number as u32),
                mode: *mode,
            })?;
        }
    }
    Ok(holds)
}

/// The constraints that the lines of a node put on it.
pub fn declared(alloc: Global, classes: &[Class], lines: &[&Decl]) -> Result<List<Hold>, Memory>
    requires order { IsStrictlySortedBy class_cmp classes.now }
    requires few { length classes.now < 4294967296 }
    ensures { IfOk result (λ holds.
        holds ≡
        holds_of (with_constraints (flat_map constraints_of (lines_now lines.now)) classes.now
        (no_modes classes.now))) }
{
    let mut modes = without_modes(alloc, classes.len())?;
    for line in lines {
        join_line(classes, line, &mut modes);
    }
    holds_of(alloc, &modes)
}
