//! A runtime that gives each flow a thread.
//!
//! Groups of up to 64 flows run at once, each flow in a leaf of its own: the leaf has the core in turn with the others,
//! and runs its flow's calls outside its turns. A leaf whose flow waits for one without a leaf returns, and the groups come
//! again until no flow is live. Whatever the order of their turns, the core comes back with a whole and
//! legal journal.
#![tactic(auto)]

mod groups;
mod leaves;
mod perflow;

pub use perflow::PerFlow;
