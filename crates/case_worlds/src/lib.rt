//! Cases run in memory: the world that each meets, and what came of it, held against what the case wants.
//!
//! The store and the folder keep the names that they are asked for, the gate counts calls and may hold the first one, and the
//! door gives the case's links. `judge_file` runs the cases of a file, by a call that its caller has.
//! That call is of the driver, in `flux_cases`; this crate knows nothing of it, so that it is proved beside.
#![tactic(auto)]

mod audits;
mod calls;
mod clients;
mod comparing;
mod judging;
mod parts;
mod watched;

pub use calls::CountingGate;
pub use comparing::Outcome;
pub use judging::judge_file;
pub use parts::{Entrance, Parts};
pub use watched::{WatchedFolder, WatchedStore};
