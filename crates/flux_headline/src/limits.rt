//! The limits, as the contract of a function that does nothing.

ghost use Rattle.flux_headline.specs.Limits.{AreFileLimits, AreDocumentLimits, AreValueLimits, AreWordLimits, AreNodeLimits, AreBencodingLimits, AreDoorLimits};

/// Each limit is its number: in bytes, or in things of its kind.
pub fn limits_are_these()
    ensures files { AreFileLimits }
    ensures documents { AreDocumentLimits }
    ensures values { AreValueLimits }
    ensures words { AreWordLimits }
    ensures nodes { AreNodeLimits }
    ensures bencoded { AreBencodingLimits }
    ensures doors { AreDoorLimits }
{}
