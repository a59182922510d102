//! Each group of nodes is in the library under its own definitions. Each law is the contract of a
//! function that does nothing.

ghost use Rattle.nodes_all.specs.Alls.{HasCounter, HasWeb, HasCaching, HasTracker};

/// `All` has all that `Counter` has, and means the same by it.
pub fn has_counter()
    ensures { HasCounter }
{}

/// `All` has all that `Web` has on its documents, and means the same by it.
pub fn has_web()
    ensures { HasWeb }
{}

/// `All` has all that `Caching` has on its documents, and means the same by it.
pub fn has_caching()
    ensures { HasCaching }
{}

/// `All` has all that `Tracker` has, and means the same by it.
pub fn has_tracker()
    ensures { HasTracker }
{}
