//! What words come to, before anything is written.
//!
//! `prepare_words` reads the words, the documents and the files, and makes all of the text that a command prints, or the
//! refusal of it; `ready_words` makes a program ready that is to be served. They promise what was asked for, that what is
//! prepared is what the command prints, that each refusal has its cause, that counts rise where reading failed alone, and
//! that what is due is answered. No runtime's code is named here: the caller hands in what drives a run's flows, alone or by
//! threads, and what simulates.
#![tactic(auto)]

mod asking;
mod audited;
mod built_in;
mod commands;
mod documents;
mod files;
mod loaded;
mod prepared;
mod refusals;
mod rules;
mod running;
mod services;
mod simulators;
mod statuses;
mod texts;

pub use asking::prepare_words;
pub use built_in::BuiltIn;
pub use prepared::Prepared;
pub use refusals::Refusal;
pub use services::{Ready, Service, ready_words};
pub use simulators::Simulator;
pub use statuses::Status;
