//! Checked programs, and what their nodes hold.
//!
//! `hoist` gives each node's locks: the least sets that have what each node declares and are closed, so that a node
//! that holds some class holds each class below it that isn't greater. It joins finished sets along the order.
//! `node_sizes` gives the sizes of nodes with such sets. `Checked` is a program with its signatures, an order of its nodes,
//! their locks and the sizes of its sources. All that is done with a program after checking rests on what this type keeps.
#![tactic(auto)]

mod checked;
mod declarers;
mod hoisting;
mod laws;
mod plans;
mod printing;
mod reports;
mod sizes;

pub use checked::{Checked, SIZE_LIMIT};
pub use hoisting::{Sets, hoist};
pub use laws::report_law;
pub use plans::print_plan;
pub use reports::report;
pub use sizes::{capped_sum, node_sizes, size_at, source_size};
