//! A runtime of a pool of workers.
//!
//! A queue has the numbers of the flows. A worker takes a number, lets that flow go on, and puts the number back unless the
//! flow has ended. The number of a flow that waits is out until whoever makes the entry that frees the flow hands it on, in
//! the same turn. The next worker that looks for a flow takes that one, before those of the queue. Whatever the order of the
//! workers' turns, the core comes back with a whole and legal journal.
#![tactic(auto)]

mod desks;
mod pool;
mod workers;

pub use pool::Pool;
