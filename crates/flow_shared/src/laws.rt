//! Which tables the rule lets be, and what places are.

ghost use Rattle.flow_shared.specs.Examples.{RuleFits};
ghost use Rattle.flow_shared.specs.Laws.{PlacesFit};

use flux_library::Library;

/// Tables that fit the rule, and some that don't.
pub fn rule_fits<L: Library>()
    ensures { RuleFits L }
{}

/// The places that a turn adds are those of its entries, a place is there once, and a join keeps the places of both.
pub fn places_fit()
    ensures { PlacesFit }
{}
