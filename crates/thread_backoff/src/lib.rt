//! How a thread that finds nothing to do waits: it lets others go first, and sleeps later on.
//!
//! Whoever tries for the turn at something that threads share, or looks for work, pauses between two tries. No clause says
//! how long a pause is.
#![tactic(auto)]

mod pauses;

pub use pauses::Pause;
