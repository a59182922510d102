//! The rules of audits by example: the contract of a function that does nothing.

ghost use Rattle.flux_examples.specs.Audits.{Kept, Broken};

/// For each rule of entries, an entry that keeps it and one that breaks it.
pub fn rules_by_example()
    ensures kept { Kept }
    ensures broken { Broken }
{}
