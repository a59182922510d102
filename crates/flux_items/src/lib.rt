//! The items text: one item on a line, in any spelling of its values.
//!
//! `read_items` gives exactly the items of the text, in order, or the fault of its first faulty line
//! with that line's number. Which lines spell an item, which are passed over and where each fault
//! applies is said by relations on the text's lines, in both directions; want of memory alone is free.
#![tactic(auto)]

mod blanks;
mod items;
mod laws;
mod lines;
mod names;
mod rules;
mod spellings;
mod words;

pub use items::read_items;
pub use laws::items_have_no_fault;
pub use rules::{ITEM_LIMIT, ItemFault, ItemRules, SIZE_LIMIT};
