//! A runtime that follows a script: a list of flows' numbers.
//!
//! Each listed number in turn lets its flow make its next move. After the list the lowest flow that can go on makes its
//! next event, again and again, until all have ended. `Follow` of `flow_orders` says so of the whole journal.
#![tactic(auto)]

mod laws;
mod scripts;

pub use laws::follows_are_scheduled;
pub use scripts::Script;
