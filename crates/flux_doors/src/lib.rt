//! Where clients come in: a door, and the links that it gives.
//!
//! A door gives links in batches; a link gives the bytes that its client sends and takes the reply; each link goes back
//! to its door. Links and doors have counts of faults, as all that is outside has: a call answers that it failed only
//! where a count rose in that call. A link that fails differs from a door that fails, and a door that fails at a first
//! accept from one that fails at a later one. What they hold is reported in memory, and not over real sockets.
//!
//! The door over real sockets has one loop of readiness (`event_loops`). It runs while a first link is waited for, and once in each
//! later batch; it reads until texts have ended, sends what is left of replies, and closes clients whose time is over. So a link that
//! it gives has its text, and no call waits for one client.
#![tactic(auto)]

mod arrivals;
mod clients;
mod connections;
mod doors;
mod endings;
mod entrances;
mod event_loops;
mod flushing;
mod framing;
mod links;
mod memory_doors;
mod memory_links;
mod real_doors;
mod real_links;
mod unsent;
mod waiting;
mod watching;

pub use doors::{Door, OUT_LIMIT};
pub use flushing::REPLY_SECONDS;
pub use framing::Framing;
pub use links::Link;
pub use memory_doors::MemoryDoor;
pub use memory_links::MemoryLink;
pub use real_doors::RealDoor;
pub use real_links::RealLink;
pub use waiting::READ_SECONDS;
