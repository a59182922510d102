//! Which programs can be served, and how their links are read.
//!
//! A program can be served where it has exactly one source whose library node takes the text of a link. `framing_of` tells
//! how its links are read, and of every other program that it can't be served.
#![tactic(auto)]

mod framings;

pub use framings::framing_of;
