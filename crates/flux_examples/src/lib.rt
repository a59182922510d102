//! Worked examples of the definitions, as theorems.
//!
//! `specs/` has small programs, journals, audits, doors and links: those that fit a definition, and those that it refuses.
//! `flows` has the examples of `flow_model`, of the orders of runtimes, of who is blocked beside calls that are run elsewhere,
//! of calls that are made at once, and of a text in pages. `audits` has those of the rules of `flux_audit`, and `serving` those
//! of `flux_doors`, `flux_batches` and `flux_serve`. `printing` has those of what can be printed and kept. No crate uses this
//! one. It is for readers who want to see what the definitions say.
#![tactic(auto)]

mod audits;
mod flows;
mod printing;
mod serving;

pub use audits::rules_by_example;
pub use flows::{refused_examples, worked_examples};
pub use printing::printing_by_example;
pub use serving::{
    at_once_by_example, doors_by_example, links_by_example, replies_by_example, serving_by_example,
};
