//! The library `Own`: nodes of one's own. It is empty as it ships.
//!
//! Each node is in two files, in the same order: `src/nodes.rt` has its signature and its code, `specs/Nodes.antt` what they
//! mean. `specs/laws/Nodes.antt` says that each keeps the laws of libraries. Nothing else is to be changed: the library
//! itself is `src/own.rt`, and the program joins it after its other libraries, whose names keep their meaning.
#![tactic(auto, unfolding(crate::specs::Own::own_meaning))]

mod nodes;
mod own;

pub use own::Own;
