//! What the nodes of a program take and give.
//!
//! `sigs` gives the signature of each node, or the least of the faults 16 to 20: a node all of
//! whose cases are empty, neighbours of a flow that don't fit, and cases whose patterns or ends
//! don't fit their node. `source_types` gives the least of the faults 22 and 23: a source that
//! doesn't fit its target, or its session function. Types are compared as they are spelled; names
//! of parameters don't matter.
#![tactic(auto)]

mod comparing;
mod flows;
mod predicates;
mod signatures;
mod sources;
mod typing;
mod words;

pub use typing::{sigs, source_types};
