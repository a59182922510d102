//! A law of items texts, as the contract of a function that does nothing.

ghost use Rattle.flux_items.specs.Apart.{ItemsHaveNoFault};

/// A text that gives items has no fault.
pub fn items_have_no_fault()
    ensures { ItemsHaveNoFault }
{}
