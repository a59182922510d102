//! Cells by key: what sessions and the whole program remember.
//!
//! Contracts see `Cells` as the cell of each key, which is empty where none is kept. A call that takes memory takes
//! it first, and changes nothing where there is none.
#![tactic(auto)]

mod alone;
mod kept;
mod touched;

pub use kept::Cells;
