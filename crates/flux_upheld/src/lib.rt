//! What is printed of a run is what an audit upholds.
//!
//! A legal journal of a sound program has the form that printing and reading agree on, where the answers of the library
//! can be printed (`specs/Printable`). So each of its two texts reads back as that journal, and an audit says yes to it.
//! The libraries of the program have such answers, and the program of sound declarations is sound. Each law is the
//! contract of a function that does nothing; `flux_headline` says what follows of the commands.
#![tactic(auto)]

mod laws;

pub use laws::{
    answers_can_be_printed, declarations_are_sound, legal_journals_are_bounded,
    legal_journals_are_readable, legal_journals_are_upheld,
};
