//! The declarations of a program, from its tokens and back to text.
//!
//! `parse` gives the declarations that the tokens spell by the grammar, or the first token that no
//! program has there. `read` does so of a text. `format` gives the one formatted text of
//! declarations, which is parsed to the same declarations.
#![tactic(auto)]

mod cursors;
mod declarations;
mod formatting;
mod least;
mod lists;
mod names;
mod parsing;
mod reading;

pub use declarations::{Constraint, Decl, Param, Word};
pub use formatting::format;
pub use least::{fault_at, fault_or, sooner};
pub use names::Names;
pub use parsing::parse;
pub use reading::read;
