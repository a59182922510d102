//! The words of the command line: a command, its files and its options.
//!
//! `read_words` gives the one command that the words spell, and None exactly where they spell none; want of
//! memory alone is free. Which words spell which command is one relation, `Spells`.
#![tactic(auto)]

mod audits;
mod commands;
mod costs;
mod given;
mod loads;
mod names;
mod needs;
mod parts;
mod replies;
mod runs;
mod serves;
mod simulations;
mod swarms;
mod values;
mod workers;

pub use commands::{Asked, read_words};
pub use costs::{COST_LIMIT, COSTS_LIMIT, Costs, PROCESSOR_LIMIT, Processors};
pub use loads::{FIRST_LIMIT, LOAD_LIMIT};
pub use needs::{needs_threads, spells_serve};
pub use replies::Replying;
pub use values::{BATCHES_LIMIT, JournalFormat, NUMBER_LIMIT, PORT_LIMIT, Runtime, WORKER_LIMIT};
pub use workers::Workers;
