//! Laws of the definitions, each as a clause of a function that does nothing.

ghost use Rattle.flux_audit.specs.Laws.{RulesMakeLegal, LegalKeepsRules, EndsMakeWhole, WholeHasEnds, OneVerdict};

/// A journal is legal exactly where each of its entries keeps all rules after those before it, and then it is whole
/// exactly where no flow is live.
pub fn rules_are_legal()
    ensures make { RulesMakeLegal }
    ensures keep { LegalKeepsRules }
    ensures ends { EndsMakeWhole }
    ensures whole { WholeHasEnds }
{}

/// A text has one verdict: one that is the journal of a true run breaks no rule, and of lines that break one only one is
/// the first.
pub fn verdicts_are_one()
    ensures { OneVerdict }
{}
