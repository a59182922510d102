//! What trials of the core drive: programs, random ones too, and a library whose calls are watched.
//!
//! `set_up` makes what flows run in of a text and of the numbers that its sources give to them, and `open` a core; `text_of` and
//! `numbers_of` make both of a seed. `Flows::uphold` holds a journal against the auditor, and `Flows::keep_rules` against plain
//! lists too. `Watched` is the library `Counter`, of whose calls a watcher is notified, which may refuse them. Trials alone use
//! this crate.
#![tactic(auto)]

mod audits;
mod building;
mod programs;
mod seeds;
mod watching;

pub use audits::{Flows, LEFT_OUT};
pub use building::{checked_of, items_of, journal_of, open, program_of, set_up, setup_of};
pub use programs::{COUNTING, FREE, NESTED, READING, SESSIONS, numbers};
pub use seeds::{numbers_of, text_of};
pub use watching::{Watched, Watcher};
