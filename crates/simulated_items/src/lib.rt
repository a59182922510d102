//! Items on simulated processors: from a checked program and its items to the three lines that are printed.
//!
//! `simulate_items` lets the items' flows run on so many processors, where the calls of the first nodes cost so
//! much as is given, and those of the others 1. What the lines say is `IsSimulationText` of `flux_runs`.
#![tactic(auto)]

mod simulations;

pub use simulations::simulate_items;
