//! The auditor: whether a text is the journal of a true run, without belief in whoever wrote it.
//!
//! `audit` answers `Yes` exactly where the text reads as a legal and whole journal of its setup, with the number of its
//! events. Else it answers `No` with the first line that breaks a rule after the lines before it, and of the rules that
//! this line breaks the first. `specs/Rules` has the rules, each as one definition, and `specs/Verdicts` which line and
//! rule come first. It goes through the lines once and keeps nothing that grows with them but where each flow is.
#![tactic(auto)]

mod audits;
mod calls;
mod entries;
mod heads;
mod laws;
mod printing;
mod sameness;
mod verdicts;

pub use audits::audit;
pub use laws::{rules_are_legal, verdicts_are_one};
pub use printing::print_verdict;
pub use verdicts::{Rule, Verdict};
