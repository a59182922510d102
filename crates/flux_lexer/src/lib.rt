//! The tokens of a program's text.
//!
//! Tokens are the longest at their places, and blanks and comments are between them. A comment
//! that nothing closes holds all that follows. A text is too long, has a byte outside comments that
//! begins no token, or has a comment that nothing closes, or `tokens` gives its tokens.
#![tactic(auto)]

mod fronts;
mod kinds;
mod reading;

pub use kinds::{Token, TokenKind};
pub use reading::{PROGRAM_LIMIT, tokens};
