//! What a program's nodes hold, counted out.

ghost use Rattle.flux_laws.specs.Hoisted.{LocksAreThere};

/// In a numbered program without cycles, the holds that are counted out class by class are the program's locks.
pub fn locks_are_there()
    ensures { LocksAreThere }
{}
