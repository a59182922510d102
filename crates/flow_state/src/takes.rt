//! Takes of keys that no flow blocks.

ghost use Rattle.std.specs.Prelude.{◌≡◌, None, OnOk, OnErr};
ghost use Rattle.std.specs.Arc.{arc_value};
ghost use Rattle.flux_plan.specs.Moves.{Advances};
ghost use Rattle.flux_table.specs.Tables.{holders_of, lines_of};
ghost use Rattle.flux_table.specs.Blockers.{Blocks, IsLowestOf, MayTake};
ghost use Rattle.flux_table.specs.Changes.{Takes};
ghost use Rattle.flow_state.specs.steps.Places.{matches_by, HasPlan, MayAdvance};
ghost use Rattle.flow_state.specs.steps.Table.{IsUndone};

use crate::setups::Setup;
use flow_model::Key;
use flux_library::Library;
use flux_model::{FlowNo, Mode};
use flux_plan::Local;
use flux_table::Table;
use flux_values::Memory;

/// Gives a flow a key, and lets it go on.
pub fn take_on<L: Library>(
    setup: &Setup<L>,
    table: &mut Table,
    local: &mut Local,
    flow: FlowNo,
    key: Key,
    mode: Mode,
) -> Result<(), Memory>
    requires may { MayTake (holders_of table.old) (lines_of table.old) flow.0 key mode }
    requires free { IsLowestOf (λ other.
        Blocks (holders_of table.old key) (lines_of table.old key) other flow.0 mode) None }
    requires comes { let matches = matches_by (L.meaning (arc_value setup.now.library))
        (arc_value setup.now.program) in
        HasPlan (arc_value setup.now.plans) setup.now.items flow.0
        (λ plan. MayAdvance plan matches local.old) }
    ensures takes { OnOk result (Takes table.old table.new flow.0 key mode) }
    ensures made { let matches = matches_by (L.meaning (arc_value setup.now.library))
        (arc_value setup.now.program) in
        OnOk result (HasPlan (arc_value setup.now.plans) setup.now.items flow.0
        (λ plan. Advances plan matches local.old local.new)) }
    ensures still { OnErr result (local.new ≡ local.old) }
    ensures undone { OnErr result (IsUndone table.old table.new flow.0 key mode) }
{
    table.take(flow, key, mode)?;
    match setup.advance(flow, local) {
        Ok(()) => Ok(()),
        Err(memory) => {
            table.release(flow, key);
            Err(memory)
        }
    }
}
