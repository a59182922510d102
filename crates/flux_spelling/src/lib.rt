//! Values as text: printed in one spelling, and read in each.
//!
//! A value has one printed spelling. `read_value` reads it and each other spelling of a value with its
//! length, and else names the first byte at which none goes on. Whatever takes memory says so by `Memory`;
//! `append_value` and `append_text` may then leave a part of what they add.
#![tactic(auto)]

mod printing;
mod reading;

pub use printing::{append_number, append_text, append_value, print_value};
pub use reading::{read_decimal, read_text_within, read_value};
