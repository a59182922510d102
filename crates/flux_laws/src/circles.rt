//! No waits form a circle.

ghost use Rattle.flux_laws.specs.Circles.{WaitsNeverCircle};

/// Where each wait is right, with the program's locks, no waits form a cycle.
pub fn waits_never_circle()
    ensures { WaitsNeverCircle }
{}
