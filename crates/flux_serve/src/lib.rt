//! Serving: the links of a door, batch by batch, each batch driven as the flows of a program.
//!
//! A batch's links are read into items. Its core opens with the cells that the batch before left. When the runtime has
//! driven it to its end, each link is written its flow's reply and goes back to the door, and then the batch's log is
//! written. What `serve` promises holds for every runtime that keeps its trait's clauses, and for every door; `serve_by` promises the
//! same of every call that runs a batch's items, and that each batch's flows go on in the order that is served.
//! `serve_at_once` promises the same of each batch that was driven whole, and of one that want of memory broke off, that some
//! flow hadn't come to its end, and that only links of flows with their `end` were answered. There workers share the core, and
//! each writes a flow's reply as soon as the flow has its `end`.
#![tactic(auto)]

mod batches;
mod batches_at_once;
mod loops;
mod orders;
mod queues;
mod replies;
mod runs;
mod serving;
mod serving_at_once;
mod stages;
mod turns;
mod workers;

pub use batches::ServeEnd;
pub use orders::BatchOrder;
pub use runs::{Served, open};
pub use serving::{serve, serve_by};
pub use serving_at_once::serve_at_once;
