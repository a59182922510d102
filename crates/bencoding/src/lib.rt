//! Bencoding (BEP 3): values printed in their one spelling, and read from the front of bytes.
//!
//! `specs/` says which bytes spell which value. `read_ben` reads exactly these, and else names the first
//! byte at which no spelling goes on.
#![tactic(auto)]

mod bounds;
mod digits;
mod keys;
mod printing;
mod reading;
mod strings;
mod values;

pub use printing::print_ben;
pub use reading::read_ben;
pub use values::{Ben, BenFault, DEPTH_LIMIT, Field, STRING_LIMIT};
