//! The library `All`: the libraries `Counter`, `Web`, `Caching` and `Tracker` as one.
//!
//! A name means what it means in the first of them that has it, and a law says that all they have is
//! here with the same meaning, since a name that two of them have means the same in both. It keeps the
//! laws of libraries.
#![tactic(auto)]

mod all;
mod groups;

pub use all::All;
pub use groups::{has_caching, has_counter, has_tracker, has_web};
