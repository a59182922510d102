//! What flows do: walks, and journals of what they did, as data and definitions.
//!
//! `specs/` says how a flow walks through a program, what a journal's flows have done and do next, which sections
//! exclude each other, who waits for whom, and which journals are legal and whole. Each definition is apart from the
//! code that meets it.
#![tactic(auto)]

mod carried;
mod journals;
mod kept_keys;

pub use carried::{Carried, SharedAnswer};
pub use journals::{CallMade, Entry, Event, Journal, Key, Outcome};
pub use kept_keys::KeptKey;
