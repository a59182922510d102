//! What comes next for a flow.

use flow_model::{Key, Outcome};
use flux_model::{Mode, NodeNo};

/// A flow's next event; a call is of a node, and has no answer yet.
#[derive(Clone, Copy, PartialEq, Eq)]
pub enum Coming {
    Take(Key, Mode),
    Enter(NodeNo),
    /// The chosen case, from 1.
    Choose(u32),
    Call(NodeNo),
    Exit(NodeNo, Outcome),
    Drop(Key),
    End(Outcome),
    /// Nothing: the flow has had its `end`.
    Ended,
}
