//! A law of the definitions, as the contract of a function that does nothing.

ghost use Rattle.flux_verify.specs.Holding.{VerifiedPlansTakeInOrder};

/// In a verified plan, wherever a run from the beginning comes before a take, its class is held in at least its mode, or
/// is above all classes that are held.
pub fn verified_plans_take_in_order()
    ensures { VerifiedPlansTakeInOrder }
{}
