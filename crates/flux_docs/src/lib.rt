//! The documents of a folder.
//!
//! `read_docs` reads a folder's documents into a map by name: under each name the first one that the folder
//! gives. Where the folder tells what it holds, documents come exactly where it is there and within the
//! limits, `Missing` where it isn't there, `TooLong` where it is past a limit. A failure comes exactly where
//! the folder's count of faults rose; it and want of memory may come in place of the other answers.
#![tactic(auto)]

mod faults;
mod reading;

pub use faults::DocsFault;
pub use reading::{BODIES_LIMIT, DOC_LIMIT, read_docs};
