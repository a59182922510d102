//! Sets of constraint classes, each held in a mode.
//!
//! Contracts see a `ClassSet` as the list of its holds, by rising class numbers, each class once. A hold that joins a
//! set is there afterwards in at least its mode: a writer wins over a reader. Only `join` and `up_to` take memory, and
//! a join that is refused for want of it changes nothing.
#![tactic(auto)]

mod sets;

pub use sets::ClassSet;
