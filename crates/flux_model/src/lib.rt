//! Programs and items as data, and what is said of them.
//!
//! `specs/` says which programs are numbered and sound, what nodes lead to and what is below them, their locks and
//! sizes, and how names and items are printed. Each definition is apart from the code that meets it.
#![tactic(auto)]

mod items;
mod laws;
mod modes;
mod named;
mod names;
mod programs;
mod signatures;
mod visits;

pub use flux_values::{Answer, CallResult, Cell, Mode, Put};
pub use items::{FlowNo, Item};
pub use laws::hoisting_law;
pub use modes::{at_least, class_order, conflict};
pub use named::{Named, Sites};
pub use names::Names;
pub use programs::{
    Body, COUNT_LIMIT, Case, Class, ClassNo, HandleArm, Hold, Node, NodeNo, Program, SourceLine,
    SourceNo,
};
pub use signatures::{NodeSig, Sigs, TypeText, same_types};
pub use visits::Visits;
