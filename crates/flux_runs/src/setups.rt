//! What items' flows run in, made of a checked program and the items.

ghost use Rattle.std.specs.Prelude.{IfOk};
ghost use Rattle.std.specs.Arc.{arc_value};
ghost use Rattle.flux_runs.specs.Opening.{CanRun, IsSetUp, IsOpened};
ghost use Rattle.flux_runs.specs.steps.Parts.{HasParts};

use flow_core::{Core, Setup};
use flux_cells::Cells;
use flux_compile::compile;
use flux_hoist::Checked;
use flux_library::Library;
use flux_model::{Item, Program};
use flux_plan::VerifiedPlan;
use flux_values::{List, Memory};
use std::alloc::Global;
use std::sync::Arc;

/// A core whose flows have done nothing, and its program.
#[derive(Drop)]
pub struct Opened<L: Library> {
    pub core: Core<L>,
    pub program: Arc<Program>,
}

/// All of it, with cells that are empty at the start.
fn assemble<L: Library>(
    alloc: Global,
    library: Arc<L>,
    program: Program,
    plans: List<VerifiedPlan>,
    items: List<Item>,
) -> Result<Setup<L>, Memory>
    ensures { IfOk result (HasParts program plans items (arc_value library)) }
{
    let program = Arc::new(alloc, program)?;
    let plans = Arc::new(alloc, plans)?;
    Ok(Setup {
        program,
        plans,
        items,
        opening: Cells::new(alloc),
        library,
    })
}

/// What the items' flows run in: the program with its plans, the items, cells that are empty at the start, and the
/// library.
pub fn set_up<L: Library>(
    alloc: Global,
    library: Arc<L>,
    checked: Checked,
    items: List<Item>,
) -> Result<Setup<L>, Memory>
    requires { CanRun (L.meaning (arc_value library)) checked.program items }
    ensures { IfOk result (IsSetUp L.meaning (arc_value library) checked.program items) }
{
    let plans = compile(alloc, &checked)?;
    assemble(alloc, library, checked.program, plans, items)
}

/// A core for the items' flows, which have done nothing.
pub fn open<L: Library>(
    alloc: Global,
    library: Arc<L>,
    checked: Checked,
    items: List<Item>,
) -> Result<Opened<L>, Memory>
    requires { CanRun (L.meaning (arc_value library)) checked.program items }
    ensures { IfOk result (IsOpened L.meaning (arc_value library) checked.program items) }
{
    let setup = set_up(alloc, library, checked, items)?;
    let program = Arc::try_clone(&setup.program)?;
    let core = Core::new(alloc, setup)?;
    Ok(Opened { core, program })
}
