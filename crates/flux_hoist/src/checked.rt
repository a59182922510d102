//! What checking gives.

ghost use Rattle.flux_hoist.specs.Keeping.{Keeps};

use crate::hoisting::Sets;
use flux_graph::Order;
use flux_model::{Program, Sigs};
use flux_values::List;

/// The most that the sizes of a program's sources sum to.
pub const SIZE_LIMIT: u32 = 65_536;

/// A program that was checked, with what was found of it.
#[derive(Drop)]
pub struct Checked {
    pub program: Program,
    /// One signature for each node.
    pub sigs: Sigs,
    /// Each node once, after all that it leads to.
    pub order: Order,
    /// The locks of each node.
    pub sets: Sets,
    /// For each source how many events its flows have at most.
    pub sizes: List<u32>,
    ghost keeps: { ∥ Keeps program sigs.nodes order.nodes sets.nodes sizes ∥₁ },
}
