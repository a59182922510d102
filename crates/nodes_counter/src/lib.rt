//! The library `Counter`: the basic nodes and those that count in cells.
//!
//! Its meaning has one definition for each node, predicate and session function, in words of its
//! own, and each call gives what they say. It keeps the laws of libraries.
#![tactic(auto)]

mod calls;
mod commands;
mod counter;
mod nodes;

pub use commands::spelled_int;
pub use counter::Counter;
pub use nodes::Node;
