//! The whole judgement of a text.
//!
//! `check` gives a text's program with its signatures, an order of its nodes, their locks and the sizes of its sources; or
//! the fault of the text: the row that applies with the least number, at its least place, looked for only where no row of an
//! earlier group applies.
#![tactic(auto)]

mod cells;
mod checking;
mod constraints;
mod scopes;
mod seen;
mod sizing;

pub use checking::check;
