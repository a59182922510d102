//! What leads to what in a program.
//!
//! A node leads to the members of its cases and to its handlers. `order` lists each node once, after all that it leads
//! to, or shows a cycle through the lowest-numbered node that is on any; both take time near the number of nodes and of
//! what they lead to. `below` gives what a node reaches over children: the members of its cases, and the handlers of
//! its children. All searches keep their steps on lists and take no room of the machine's stack.
#![tactic(auto)]

mod children;
mod clearing;
mod leaving;
mod ordering;
mod orders;
mod returning;
mod steps;

pub use children::below;
pub use ordering::order;
pub use orders::{GraphFault, Order};
