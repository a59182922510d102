//! Who is notified of each call of a node.

use flux_model::{FlowNo, NodeNo};

/// Is notified before and after each call, by any thread.
pub trait Gate {
    fn before(&self, flow: FlowNo, node: NodeNo);

    fn after(&self, flow: FlowNo, node: NodeNo);
}

/// Lets each call pass.
#[derive(Clone, Copy)]
pub struct OpenGate;

impl Gate for OpenGate {
    fn before(&self, _flow: FlowNo, _node: NodeNo) {}

    fn after(&self, _flow: FlowNo, _node: NodeNo) {}
}
