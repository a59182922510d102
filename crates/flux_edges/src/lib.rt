//! Whether handlers and sessions fit a program.
//!
//! `handler_types` gives fault 21: a handler that doesn't take what its node takes.
//! `session_edges` gives fault 26: a source without a session function from which flows come to a
//! session constraint.
#![tactic(auto)]

mod handlers;
mod places;
mod sessions;

pub use handlers::handler_types;
pub use sessions::session_edges;
