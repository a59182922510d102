//! What `order` answers.

ghost use Rattle.std.specs.Prelude.{◌≡◌};
ghost use Rattle.flux_graph.specs.declared.orders.GraphFault.TheVariants as causes;

use flux_model::NodeNo;
use flux_values::{List, Memory};

/// The nodes of a program, each after all that it leads to.
pub struct Order {
    pub nodes: List<NodeNo>,
}

impl Drop for Order {
    fn drop(self) {
        let Order { nodes } = self;
    }
}

/// Why a program has no order.
#[derive(Drop)]
pub enum GraphFault {
    /// A node leads back to itself. The path begins and ends with the lowest-numbered node that is on any cycle.
    Cycle { path: List<NodeNo> },
    /// Memory ran out.
    Memory,
}

impl From<Memory> for GraphFault {
    ghost from_gives = { λ _ fault. fault ≡ causes.Memory };

    fn from(_memory: Memory) -> GraphFault {
        GraphFault::Memory
    }
}
