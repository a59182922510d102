//! What calls are given.

ghost use Rattle.std.specs.Prelude.{◌≡◌};
ghost use Rattle.flow_state.specs.Calls.{made_of};

use flow_model::{CallMade, Carried, SharedAnswer};
use flux_model::NodeNo;
use flux_values::{Cell, List};

/// What a call of a node is given: values, and the cells that the node uses, in order.
pub struct Inputs {
    pub node: NodeNo,
    pub args: Carried,
    pub cells: List<Cell>,
}

impl Drop for Inputs {
    fn drop(self) {
        let Inputs { node, args, cells } = self;
    }
}

impl Inputs {
    /// The call with its answer, as an entry has it. The cells are let go, so that puts change them where they are.
    pub fn answered(self, answer: SharedAnswer) -> CallMade
        ensures { result ≡ made_of self answer }
    {
        let Inputs { node, args, cells } = self;
        drop(cells);
        CallMade { node, args, answer }
    }
}
