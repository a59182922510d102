//! Faults of program texts, their places and their lines.
//!
//! A fault is at a byte of the text or at its end. `place` gives its line and column, and
//! `fault_line` the one line that is written about it.
#![tactic(auto)]

mod faults;
mod lines;
mod places;

pub use faults::{CheckFault, FaultKind, Place, StaticFault};
pub use lines::fault_line;
pub use places::{PLACE_LIMIT, place};
