//! The library of nodes: what programs may name, and what it answers.
//!
//! `Library` gives as calls what `Meaning` says of a library, and `Docs` keeps the documents of one.
//! What libraries share is here once: the spellings of types (`types`), signatures, answers and
//! sessions.
#![tactic(auto)]

pub mod answers;
mod documents;
mod libraries;
pub mod sessions;
pub mod signatures;
pub mod types;

pub use documents::{BODY_LIMIT, Docs};
pub use flux_values::{CellUse, EMISSION_LIMIT, Meaning, Role, Sig};
pub use libraries::Library;
