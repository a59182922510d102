//! The text of a journal, in its two formats: printed, and read back with values in any spelling.
//!
//! A journal has one printed text in format 1, and in format 2 one for each number of flows.
//! `read_line` and `read_journal` take exactly the lines of the program's entries, and name the first bad
//! line otherwise. A text reads as one journal at most, and the printed text of a journal reads as that one.
#![tactic(auto)]

mod calls;
mod cursors;
mod cuts;
mod digits;
mod faults;
mod journals;
mod key_phrases;
mod keys;
mod laws;
mod lines;
mod names;
mod outcomes;
mod pages;
mod paging;
mod phrases;
mod printing;
mod quotes;
mod texts;

pub use faults::{JournalFault, LineFault};
pub use journals::read_journal;
pub use laws::text_law;
pub use lines::{LineReader, read_line};
pub use pages::Pages;
pub use paging::{print_pages, print_pages_2};
pub use printing::{print_batch, print_item, print_journal, print_journal_2, print_log};
pub use texts::{Head, Lines, is_headed, read_head};
