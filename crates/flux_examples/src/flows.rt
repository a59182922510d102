//! Walks, journals and orders by example: each a contract of a function that does nothing.

ghost use Rattle.flux_examples.specs.Examples.{Examples, Refused};

/// Small programs have the walks, and small journals the holds, that the language's description gives them.
pub fn worked_examples()
    ensures { Examples }
{}

/// Journals that break a rule are refused by its definition.
pub fn refused_examples()
    ensures { Refused }
{}
