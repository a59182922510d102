//! The row on names that a node has in both scopes.

ghost use Rattle.std.specs.Prelude.{◌≡◌, None, IfOk, OnOk};
ghost use Rattle.flux_syntax.specs.Least.{soonest};
ghost use Rattle.flux_names.specs.Rows.{word_if};
ghost use Rattle.flux_check.specs.Rows.{constraints_in, both_scopes};
ghost use Rattle.flux_check.specs.steps.Seen.{constraints_with, is_crossed, and_scope, and_scopes, crossed_by};

use crate::seen::Seen;
use flux_names::{Place, with_word};
use flux_syntax::{Constraint, Decl, Word};
use flux_values::Memory;
use std::alloc::Global;

/// Sees a constraint of a node. It counts for the place where its other scope was seen before.
fn see<'a>(
    seen: &mut Seen<'a>,
    node: &'a Word,
    constraint: &'a Constraint,
    place: Place,
) -> Result<Place, Memory>
    ensures place { IfOk result (λ p. p ≡ soonest place (word_if (is_crossed seen.old
        (record { node = node.now; constraint = constraint.now })) constraint.now.name)) }
    ensures seen { OnOk result (seen.new ≡ and_scope seen.old
        (record { node = node.now; constraint = constraint.now })) }
{
    let own = node.text.as_bytes();
    let name = constraint.name.text.as_bytes();
    let crossed = seen.has(own, name, !constraint.session);
    seen.add(own, name, constraint.session)?;
    Ok(with_word(place, crossed, &constraint.name))
}

fn see_all<'a>(
    seen: &mut Seen<'a>,
    node: &'a Word,
    constraints: &'a [Constraint],
    place: Place,
) -> Result<Place, Memory>
    ensures place { IfOk result (λ p. p ≡ soonest place (crossed_by seen.old
        (constraints_with node.now constraints.now))) }
    ensures seen { OnOk result (seen.new ≡ and_scopes seen.old
        (constraints_with node.now constraints.now)) }
{
    let mut place = place;
    for constraint in constraints {
        place = see(seen, node, constraint, place)?;
    }
    Ok(place)
}

fn see_line<'a>(seen: &mut Seen<'a>, decl: &'a Decl, place: Place) -> Result<Place, Memory>
    ensures place { IfOk result (λ p. p ≡ soonest place
        (crossed_by seen.old (constraints_in decl.now))) }
    ensures seen { OnOk result (seen.new ≡ and_scopes seen.old (constraints_in decl.now)) }
{
    match decl {
        Decl::Atomic { node, constraints } => see_all(seen, node, constraints.as_slice(), place),
        _ => Ok(place),
    }
}

/// The least place of a constraint whose other scope stood before it on its node.
pub fn both_scopes(alloc: Global, decls: &[Decl]) -> Result<Place, Memory>
    ensures { IfOk result (λ p. p ≡ soonest None (both_scopes decls.now)) }
{
    let mut seen = Seen::new(alloc);
    let mut place = None;
    for decl in decls {
        place = see_line(&mut seen, decl, place)?;
    }
    Ok(place)
}
