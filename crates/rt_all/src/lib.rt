//! The runtimes of the program, as one.
//!
//! It says which runtime the words name, and by `specs/Orders` the order of each: one more runtime is one more of `AnyRuntime`,
//! with its order. What the order of the words is, without the runtimes, says `Orders` of `flux_runs`.
#![tactic(auto)]

mod any_runtime;

pub use any_runtime::AnyRuntime;
