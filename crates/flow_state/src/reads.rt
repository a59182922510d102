//! What calls are given: values, and the cells that they use.

ghost use Rattle.std.specs.Prelude.{◌≡◌, ◌<◌, IsSome, length, slice_get, IfOk};
ghost use Rattle.std.specs.Arc.{arc_value};
ghost use Rattle.flux_model.specs.Locks.{declared};
ghost use Rattle.flux_cells.specs.Kept.{cells_of};
ghost use Rattle.flow_state.specs.States.{setup_at};
ghost use Rattle.flow_state.specs.declared.coming.Coming.TheVariants as comings;
ghost use Rattle.flow_state.specs.Coming as comes;
ghost use Rattle.flow_state.specs.Calls.{IsReady, IsNextCall};
ghost use Rattle.flow_state.specs.steps.Cells.{classes_read};
ghost use Rattle.flow_state.specs.steps.Reads.{IsKnown, AreRead};
ghost use Rattle.flow_state.specs.steps.Fields.{state_of, AreFields};

use crate::fields::Fields;
use crate::inputs::Inputs;
use crate::keys::cells_under;
use flux_library::Library;
use flux_model::{FlowNo, Hold, NodeNo, Program};
use flux_values::{Cell, List, Memory};

/// The constraints that a node declares.
pub fn declared_of(p: &Program, node: NodeNo) -> &[Hold]
    requires { IsSome (slice_get p.now.nodes node.0) }
    ensures { result.now ≡ declared p.now node.0 }
{
    let Some(found) = p.nodes.get(node.0 as usize) else {
        unreachable!()
    };
    found.declared.as_slice()
}

impl<L: Library> Fields<L> {
    /// The cells that a node uses in a session.
    fn cells_for(&self, session: u64, node: NodeNo) -> Result<List<Cell>, Memory>
        requires known { IsKnown (L.meaning (arc_value self.now.setup.library))
            (arc_value self.now.setup.program) node.0 }
        requires reads { self.now.reads ≡ classes_read (L.meaning (arc_value self.now.setup.library))
            (arc_value self.now.setup.program) }
        ensures { IfOk result (AreRead (L.meaning (arc_value self.now.setup.library))
            (arc_value self.now.setup.program) (cells_of self.now.cells) session node.0) }
    {
        let Some(classes) = self.reads.get(node.0 as usize) else {
            unreachable!()
        };
        cells_under(
            self.alloc,
            &self.setup.program,
            &self.cells,
            session,
            classes.as_slice(),
        )
    }

    /// What the call of a node that comes next for a flow is given.
    pub fn inputs(&self, flow: FlowNo, node: NodeNo) -> Result<Inputs, Memory>
        requires fields { AreFields L.meaning self.now }
        requires flow { flow.0 < length self.now.setup.items }
        requires at { comes.IsComing (setup_at L.meaning (state_of self.now)) self.now.made flow.0
            (comings.Call node) }
        ensures next { IfOk result
            (IsNextCall (setup_at L.meaning (state_of self.now)) self.now.made flow.0) }
        ensures ready { IfOk result (IsReady (L.meaning (arc_value self.now.setup.library))
            (arc_value self.now.setup.program)) }
    {
        self.has_next(flow);
        let place = &self.places[flow.0 as usize];
        Ok(Inputs {
            node,
            args: place.local.share_args()?,
            cells: self.cells_for(place.session, node)?,
        })
    }
}
