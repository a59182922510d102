//! Which plans have no faulty place, and the law of plans that have none.
#![tactic(auto)]

mod checks;
mod laws;
mod orders;
mod reaching;
mod shapes;
mod takes;
mod verified;
mod verifying;

pub use laws::verified_plans_take_in_order;
pub use verified::{VerifyFault, verify};
