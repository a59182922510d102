//! A law of the definitions, as the contract of a function that does nothing.

ghost use Rattle.flux_hoist.specs.Reports.{ReportsAreOne};

/// A program whose nodes hold given locks has at most one report.
pub fn report_law()
    ensures { ReportsAreOne }
{}
