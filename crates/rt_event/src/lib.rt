//! A runtime that is an event loop, on one thread or with helpers.
//!
//! On one thread flows take turns, cyclically: each goes on to its call, its wait or its end. `Round` of `flow_orders`
//! says so of the whole journal. What the loop does for an event doesn't grow with the number of flows.
//!
//! With helpers the loop begins calls and makes all other events, and each helper runs the calls of its own flows. Loop and
//! helpers have the core in turn. Whatever the order of their turns, the core comes back with a whole and legal journal.
#![tactic(auto)]

mod bells;
mod helpers;
mod leads;
mod loops;
mod parts;
mod ready;
mod shifts;

pub use loops::EventLoop;
