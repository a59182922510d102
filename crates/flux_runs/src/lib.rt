//! What is printed of a run: its journal, or its summary.
//!
//! `open` makes a core of a checked program and its items; `print` gives the text of its journal or of its summary,
//! once it was driven to its end. `specs/Orders` says in which order flows go on by the runtime that the words name, and
//! `specs/Simulations` what is printed of a run on simulated processors, which `simulated_items` makes.
#![tactic(auto)]

mod printing;
mod setups;
mod summaries;

pub use printing::{Printing, print};
pub use setups::{Opened, open, set_up};
