//! The law of hoisting, as the contract of a function that does nothing.

ghost use Rattle.flux_model.specs.Locks.{LocksAreLeastClosed};

/// The locks of a program's nodes are closed, have each node's declared constraints, and every other such
/// assignment has at least as much.
pub fn hoisting_law()
    ensures { LocksAreLeastClosed }
{}
