//! What the program meets outside: files that it reads and streams that it writes.
//!
//! Each outside object is a trait with a count of faults. The count never falls, and a call answers that it
//! failed only where the count rose in that call, or is at its type's end: code that is generic over the
//! trait can't raise the count, so it can't claim a fault that didn't happen. What an object holds or took is
//! reported where it is known: over memory it is, over real files and streams it isn't.
#![tactic(auto)]

mod asked;
mod calls;
mod faults;
mod folders;
mod interrupted;
mod memory;
mod memory_folders;
mod real;
mod real_folders;
mod sinks;
mod stores;
mod system;
mod told;
mod writing;

pub use asked::AskedNames;
pub use calls::Calls;
pub use faults::{Failed, StoreFault, count_failure};
pub use folders::{Folder, NextDoc};
pub use interrupted::{read_on, write_on};
pub use memory::{FileBytes, MemorySink, MemoryStore};
pub use memory_folders::MemoryFolder;
pub use real::{RealSink, RealStore, Unbuffered};
pub use real_folders::{RealFolder, SUBFOLDER_LIMIT};
pub use sinks::Sink;
pub use stores::{File, Store};
pub use writing::write_all;
