//! The row on cells that no constraint protects.

ghost use Rattle.std.specs.Prelude.{◌≡◌, [], None, IfOk, OnOk};
ghost use Rattle.std.specs.List.{flat_map, list_all};
ghost use Rattle.flux_syntax.specs.Least.{soonest};
ghost use Rattle.flux_check.specs.Rows.{constraints_in, unprotected};
ghost use Rattle.flux_check.specs.steps.Seen.{constraints_with, is_writer, and_mode, and_modes, is_held, are_held, unheld_in};

use crate::seen::Seen;
use flux_library::Library;
use flux_names::{Place, library_node, with_word};
use flux_syntax::{Constraint, Decl, Word};
use flux_values::{CellUse, Memory, Mode, Sig};
use std::alloc::Global;

fn is_writer(mode: Mode) -> bool
    ensures { result ≡ is_writer mode }
{
    match mode {
        Mode::Writer => true,
        Mode::Reader => false,
    }
}

fn see<'a>(modes: &mut Seen<'a>, node: &'a Word, constraint: &'a Constraint) -> Result<(), Memory>
    ensures { OnOk result (modes.new ≡ and_mode modes.old
        (record { node = node.now; constraint = constraint.now })) }
{
    let name = constraint.name.text.as_bytes();
    modes.add(node.text.as_bytes(), name, is_writer(constraint.mode))
}

fn see_all<'a>(
    modes: &mut Seen<'a>,
    node: &'a Word,
    constraints: &'a [Constraint],
) -> Result<(), Memory>
    ensures { OnOk result (modes.new ≡ and_modes modes.old
        (constraints_with node.now constraints.now)) }
{
    for constraint in constraints {
        see(modes, node, constraint)?;
    }
    Ok(())
}

fn see_line<'a>(modes: &mut Seen<'a>, decl: &'a Decl) -> Result<(), Memory>
    ensures { OnOk result (modes.new ≡ and_modes modes.old (constraints_in decl.now)) }
{
    match decl {
        Decl::Atomic { node, constraints } => see_all(modes, node, constraints.as_slice()),
        _ => Ok(()),
    }
}

/// The constraints of all nodes, with their modes.
fn modes_of<'a>(alloc: Global, decls: &'a [Decl]) -> Result<Seen<'a>, Memory>
    ensures { IfOk result (λ modes. modes ≡ and_modes [] (flat_map constraints_in decls.now)) }
{
    let mut modes = Seen::new(alloc);
    for decl in decls {
        see_line(&mut modes, decl)?;
    }
    Ok(modes)
}

/// Whether a node has a constraint of a cell's name, in at least the mode of its use.
fn is_held(modes: &Seen, node: &[u8], cell: &CellUse) -> bool
    ensures { result ≡ is_held modes.now node.now cell.now }
{
    let name = cell.name.as_bytes();
    modes.has(node, name, true) || (!is_writer(cell.mode) && modes.has(node, name, false))
}

fn all_held(modes: &Seen, node: &[u8], cells: &[CellUse]) -> bool
    ensures { result ≡ list_all (is_held modes.now node.now) cells.now }
{
    for cell in cells {
        if !is_held(modes, node, cell) {
            return false;
        }
    }
    true
}

fn are_held(modes: &Seen, node: &[u8], sig: &Option<Sig>) -> bool
    ensures { result ≡ are_held modes.now node.now sig.now }
{
    match sig {
        Some(sig) => all_held(modes, node, sig.cells.as_slice()),
        None => true,
    }
}

/// With the name of a signature whose library node uses a cell that isn't protected.
fn with_line<L: Library>(
    alloc: Global,
    library: &L,
    modes: &Seen,
    decl: &Decl,
    place: Place,
) -> Result<Place, Memory>
    ensures { IfOk result (λ p. p ≡ soonest place
        (unheld_in (L.meaning library.now) modes.now decl.now)) }
{
    match decl {
        Decl::Signature { name, .. } => {
            let sig = library_node(alloc, library, name)?;
            let held = are_held(modes, name.text.as_bytes(), &sig);
            Ok(with_word(place, !held, name))
        }
        _ => Ok(place),
    }
}

fn unheld<L: Library>(
    alloc: Global,
    library: &L,
    modes: &Seen,
    decls: &[Decl],
) -> Result<Place, Memory>
    ensures { IfOk result (λ p. p ≡ soonest None
        (flat_map (unheld_in (L.meaning library.now) modes.now) decls.now)) }
{
    let mut place = None;
    for decl in decls {
        place = with_line(alloc, library, modes, decl, place)?;
    }
    Ok(place)
}

/// The least place of a signature whose library node uses a cell that isn't protected.
pub fn unprotected<L: Library>(alloc: Global, library: &L, decls: &[Decl]) -> Result<Place, Memory>
    ensures { IfOk result (λ p. p ≡ soonest None (unprotected (L.meaning library.now) decls.now)) }
{
    let modes = modes_of(alloc, decls)?;
    unheld(alloc, library, &modes, decls)
}
