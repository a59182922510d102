//! Trials of what only calls show, each with rows of what they answer: of tables and cells, of what is below nodes, of what sets
//! of classes cover, of the order of classes, and of a plan that is refused.
//!
//! No crate uses this one. What a command line shows is tried by cases of `flux_cases`, and what a core makes of tables and
//! cells in `flow_trials`.
#![tactic(auto)]

#[cfg(test)]
mod tests;
