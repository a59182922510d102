//! What came of a simulation.

use flow_core::Core;
use flow_orders::Run;
use flux_library::Library;
use flux_values::List;

/// A core at its end, and when all came about.
#[derive(Drop)]
pub struct Simulated<L: Library> {
    pub core: Core<L>,
    /// The tick of each entry of the journal.
    pub at: List<u64>,
    /// The runs, in the order in which the journal has their calls.
    pub runs: List<Run>,
    /// The last tick.
    pub ticks: u64,
}
