//! When calls run on processors.

use flux_model::{FlowNo, NodeNo};

/// A call of a flow's node, and when it ran on a processor: from `start` on, until `stop`, in ticks from 0.
#[derive(Clone, Copy)]
pub struct Run {
    pub flow: FlowNo,
    pub node: NodeNo,
    pub start: u64,
    pub stop: u64,
}
