//! In which order the flows of a batch go on.

use flux_model::FlowNo;
use flux_values::List;

/// The order in which the flows of each batch go on.
#[derive(Drop)]
pub enum BatchOrder {
    /// Any order.
    Any,
    /// Flow after flow, each up to its first call, its wait or its end.
    Round,
    /// One event of each flow that is listed, in order, as often as it is listed; and then of the lowest ones.
    Listed(List<FlowNo>),
}
