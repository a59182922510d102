//! Trials of the outside: what only calls show of files, streams and doors, over a system that is made up, and over a
//! real socket.
//!
//! No crate uses this one. What a command line shows is tried by cases of `flux_cases`.
#![tactic(auto)]

#[cfg(test)]
mod tests;
