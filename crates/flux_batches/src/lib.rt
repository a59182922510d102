//! The links of a batch: taken at a door, read into items, answered from a journal, and given back.
//!
//! A link's item is its number and its text: a request's head, or a line. A link whose read failed has no item and is
//! written nothing. The reply of a flow is what its calls emit, in order. Whatever comes between, each link goes back to
//! the door, in the order in which they came.
#![tactic(auto)]

mod gathering;
mod items;
mod numbering;
mod reading;
mod replying;
mod spans;

pub use gathering::{LINK_LIMIT, NoBatch, gather, give_back, give_back_read};
pub use items::items_of;
pub use reading::{ReadLink, Sent, read_links};
pub use replying::{answer_links, copy_of_reply, reply, send};
