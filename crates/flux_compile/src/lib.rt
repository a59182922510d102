//! The compiler: from a checked program to a plan for each of its sources.
//!
//! `compile` gives each node a segment, which all plans share: its takes by rising classes, `Enter`, its body, `Exit`, its
//! drops in reverse, and the handlers of its failures. On every list of values and answers a plan makes exactly the events of
//! the walk of its source's target.
#![tactic(auto)]

mod bodies;
mod compiling;
mod copies;
mod segments;

pub use compiling::compile;
