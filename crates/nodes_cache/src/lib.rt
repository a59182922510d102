//! The library `Caching`: nodes that keep documents in the cell `cache`, with their uses and users.
//!
//! Its meaning has one definition for each node, in words of its own, and each call gives what they
//! say on the library's documents. It keeps the laws of libraries.
#![tactic(auto)]

mod caching;
mod calls;
mod changes;
mod entries;
mod nodes;
mod predicates;

pub use caching::Caching;
pub use entries::{ENTRY_LIMIT, NAME_LIMIT};
pub use nodes::Node;
pub use predicates::{asked, holds};
