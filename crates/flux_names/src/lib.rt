//! From declarations to a numbered program.
//!
//! `resolve` takes any list of declarations. It gives their program, each node made from all its lines,
//! with the places of its names in the text; or the least fault of names.
#![tactic(auto)]

mod classes;
mod codes;
mod lines;
mod modes;
mod naming;
mod nodes;
mod places;
mod programs;
mod repeats;
mod resolving;
mod rows;
mod signatures;
mod sorts;
mod uses;
mod words;

pub use flux_model::{Named, Sites};
pub use places::{Place, with_word};
pub use resolving::resolve;
pub use rows::{CLASS_LIMIT, CODE_LIMIT, NODE_LIMIT};
pub use signatures::library_node;
