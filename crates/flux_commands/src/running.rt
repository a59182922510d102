//! The run of items, from a checked program to what is printed of it.

ghost use Rattle.std.specs.Prelude.{◌≡◌, [], IfOk};
ghost use Rattle.std.specs.Arc.{arc_value};
ghost use Rattle.flow_model.specs.CellsAfter.{cells_after};
ghost use Rattle.flux_cells.specs.Kept.{cells_of};
ghost use Rattle.flow_core.specs.States.{setup_in};
ghost use Rattle.flux_runs.specs.Opening.{CanRun};
ghost use Rattle.flux_commands.specs.BuiltIn.{meaning_in};
ghost use Rattle.flux_commands.specs.Driving.{IsDriven, CanDrive};
ghost use Rattle.flux_commands.specs.steps.Running.{IsRun};

use crate::built_in::BuiltIn;
use flow_core::Core;
use flow_model::Journal;
use flux_cells::Cells;
use flux_cli::Runtime;
use flux_hoist::Checked;
use flux_journal::Pages;
use flux_model::Item;
use flux_runs::{Printing, open, print};
use flux_values::{List, Memory};
use std::alloc::Global;
use std::sync::Arc;

/// How items are run, and what is printed of the run.
#[derive(Drop)]
pub struct Wanted {
    pub runtime: Runtime,
    pub printing: Printing,
}

/// The journal of a core that is driven to its end, and its cells then.
fn drive<D: Fn(Core<BuiltIn>, Runtime) -> Result<Core<BuiltIn>, Memory>>(
    core: Core<BuiltIn>,
    runtime: Runtime,
    driver: &D,
) -> Result<(Journal, Cells), Memory>
    requires empty { core.entries ≡ [] }
    requires drives { CanDrive (D.pre driver.now) (D.post driver.now) }
    ensures driven { IfOk result (λ ended. IsDriven (setup_in meaning_in core) runtime ended.0.entries) }
    ensures cells { IfOk result (λ ended. cells_of ended.1
        ≡ cells_after (setup_in meaning_in core) ended.0.entries) }
{
    match driver(core, runtime) {
        Ok(core) => Ok(core.into_parts()),
        Err(_) => Err(Memory),
    }
}

/// What is printed of the run of items.
pub fn run_items<D: Fn(Core<BuiltIn>, Runtime) -> Result<Core<BuiltIn>, Memory>>(
    alloc: Global,
    library: Arc<BuiltIn>,
    checked: Checked,
    items: List<Item>,
    wanted: Wanted,
    driver: &D,
) -> Result<Pages, Memory>
    requires can { CanRun (meaning_in (arc_value library)) checked.program items }
    requires drives { CanDrive (D.pre driver.now) (D.post driver.now) }
    ensures { IfOk result (IsRun (meaning_in (arc_value library)) checked.program items wanted) }
{
    let flows = items.len() as u32;
    let opened = open(alloc, library, checked, items)?;
    let (journal, cells) = drive(opened.core, wanted.runtime, driver)?;
    print(
        alloc,
        wanted.printing,
        &opened.program,
        flows,
        journal,
        &cells,
    )
}
