//! Which tables and steps the hall's rule lets be.

ghost use Rattle.flow_hall.specs.Examples.{RuleFits, StepsFit};

use flux_library::Library;

/// Tables that fit the rule, and some that don't.
pub fn rule_fits<L: Library>()
    ensures { RuleFits L }
{}

/// Steps that are no try for the turn, and seats that can't give it.
pub fn steps_fit<L: Library>()
    ensures { StepsFit L }
{}
