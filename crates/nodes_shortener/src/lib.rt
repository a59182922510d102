//! The library of the tutorial's link shortener: nodes that keep links under numbers, and send clients to them.
//!
//! Each node is in two files, in the same order: `src/nodes.rt` has its signature and its code, `specs/Nodes.antt` what they
//! mean. `specs/laws/Nodes.antt` says that each keeps the laws of libraries. The other files are those that `./flux new`
//! makes: what nodes read of their arguments and their cells, and the library itself.
#![tactic(auto, unfolding(crate::specs::Own::own_meaning))]

mod arguments;
mod cells;
mod nodes;
mod own;

pub use own::Own;
