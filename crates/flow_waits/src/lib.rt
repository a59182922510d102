//! No live flow is stuck: which flow can go on, and how all come to their ends.
#![tactic(auto)]

mod candidates;
mod drains;
mod laws;
mod numbers;
mod parked_flows;
mod turns;

pub use candidates::{Candidates, Idlers};
pub use drains::{drain, drain_by, enabled};
pub use laws::{blocked_stay, calls_keep_covers, fresh_are_alike, writers_block};
pub use numbers::Numbers;
pub use turns::{Turn, take_turn};
