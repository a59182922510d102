//! The rule of simulated processors fixes what comes of them.
//!
//! For one setup, costs and number of processors it has one journal, with one tick for each entry, one run for each call
//! and one last tick. So what a simulation prints is that of the rule, and not of some run by it. The law is the contract
//! of a function that does nothing.
#![tactic(auto)]

mod laws;

pub use laws::rule_is_one;
