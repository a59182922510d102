//! The law, as the clause of a function that does nothing.

ghost use Rattle.flow_ticks.specs.Laws.{RuleIsOne};

/// What comes by the rule is one.
pub fn rule_is_one()
    ensures { RuleIsOne }
{}
