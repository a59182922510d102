//! The command line: all that the program does, as one call.
//!
//! `top` takes the words and the outside world, and answers a status. Where `run` ends with status 0, it
//! has printed the journal of a true run of the items through the program of the text; every other status
//! comes exactly for its cause. What words come to before anything is written is made in `flux_commands`, over
//! runtimes and a simulator that are handed in here; here it is written, or a program that is ready is served.
#![tactic(auto)]

mod drivers;
mod outermost;
mod pages;
mod serving;
mod telling;

pub use flow_core::{Gate, OpenGate};
pub use flux_cli::needs_threads;
pub use flux_commands::Status;
pub use outermost::{World, answer, top, top_alone};
