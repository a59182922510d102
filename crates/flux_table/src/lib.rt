//! The constraint table: which flows hold a key, and which wait for it.
//!
//! Contracts see a `Table` as two maps: from each key to its holders, and from each key to its line, first come
//! first. A call that takes memory takes it first, and changes nothing where there is none.
#![tactic(auto)]

mod lines;
mod locks;
mod queues;
mod tables;

pub use locks::{Held, Waiter};
pub use tables::{Table, Taken};
