//! From a text and the numbers that its sources give to what flows run in, and to a core whose flows have done nothing.

ghost use Rattle.std.specs.Prelude.{◌≡◌, ◌≤◌, IfOk, length};
ghost use Rattle.std.specs.Arc.{arc_value};
ghost use Rattle.std.specs.List.{AllByRecursion};
ghost use Rattle.flux_model.specs.Kinds.{kinds_at};
ghost use Rattle.flux_model.specs.Items.{IsItemFor};
ghost use Rattle.flux_model.specs.Names.{IsNamed};
ghost use Rattle.flux_model.specs.Numbered.{IsNumbered};
ghost use Rattle.flux_model.specs.Soundness.{IsSound};
ghost use Rattle.flow_state.specs.States.{MayRun};
ghost use Rattle.trial_programs.specs.Made.{IsMadeOf};

use flow_core::{Core, Setup};
use flow_model::Journal;
use flux_cells::Cells;
use flux_check::check;
use flux_compile::compile;
use flux_faults::CheckFault;
use flux_hoist::Checked;
use flux_library::Library;
use flux_model::{Item, Program, SourceNo};
use flux_plan::VerifiedPlan;
use flux_values::{Kind, List, Memory, Value};
use plain_journals::Given;
use std::alloc::Global;
use std::sync::Arc;
use trial_ends::Trouble;

/// The most flows of a core.
const FLOW_LIMIT: usize = 4_096;

/// The text's program with what is found of it.
pub fn checked_of<L: Library>(alloc: Global, text: &[u8], library: &L) -> Result<Checked, Trouble>
    ensures sound { IfOk result (λ checked. IsSound (L.meaning library.now) checked.program
        (kinds_at checked.sigs.nodes)) }
    ensures numbered { IfOk result (λ checked. IsNumbered checked.program) }
    ensures named { IfOk result (λ checked. IsNamed checked.program) }
{
    match check(alloc, text, library) {
        Ok(checked) => Ok(checked),
        Err(CheckFault::Memory) => Err(Trouble::Memory),
        Err(CheckFault::Static(_)) => Err(Trouble::Wrong),
    }
}

/// The program alone. What is found of it is let go in one place.
pub fn program_of(checked: Checked) -> Program
    ensures { result ≡ checked.program }
{
    checked.program
}

/// What a core's flows did. All else of it is let go in one place.
pub fn journal_of<L: Library>(core: Core<L>) -> Journal {
    let (journal, _cells) = core.into_parts();
    journal
}

/// The item of a source that gives one number.
fn item_of(alloc: Global, checked: &Checked, given: Given) -> Result<Item, Trouble>
    ensures { IfOk result (IsItemFor checked.now.program (kinds_at checked.now.sigs.nodes)) }
{
    let Some(line) = checked.program.sources.get(given.source as usize) else {
        return Err(Trouble::Wrong);
    };
    let Some(sig) = checked.sigs.nodes.get(line.node.0 as usize) else {
        return Err(Trouble::Wrong);
    };
    let [out] = sig.outs.as_slice() else {
        return Err(Trouble::Wrong);
    };
    if out.kind != Kind::Int {
        return Err(Trouble::Wrong);
    }
    let mut values = List::new(alloc);
    values.add(Value::Int(given.number))?;
    Ok(Item {
        source: SourceNo(given.source),
        values,
    })
}

/// An item for each flow.
pub fn items_of(alloc: Global, checked: &Checked, given: &[Given]) -> Result<List<Item>, Trouble>
    ensures fit { IfOk result (AllByRecursion
        (IsItemFor checked.now.program (kinds_at checked.now.sigs.nodes))) }
    ensures few { IfOk result (λ items. length items ≤ 4096) }
{
    if given.len() > FLOW_LIMIT {
        return Err(Trouble::Wrong);
    }
    let mut items = List::new(alloc);
    for one in given {
        items.add(item_of(alloc, checked, *one)?)?;
    }
    Ok(items)
}

/// What is made of a program with its plans, of items and of a library. No cell has anything at the start.
pub fn setup_of<L: Library>(
    alloc: Global,
    program: Program,
    plans: List<VerifiedPlan>,
    items: List<Item>,
    library: L,
) -> Result<Setup<L>, Memory>
    ensures { IfOk result (IsMadeOf program plans items library) }
{
    let program = Arc::new(alloc, program)?;
    let plans = Arc::new(alloc, plans)?;
    let library = Arc::new(alloc, library)?;
    Ok(Setup {
        program,
        plans,
        items,
        opening: Cells::new(alloc),
        library,
    })
}

/// What the flows of the text's program run in, one flow for each number.
pub fn set_up<L: Library>(
    alloc: Global,
    text: &[u8],
    given: &[Given],
    library: L,
) -> Result<Setup<L>, Trouble>
    ensures run { IfOk result (λ setup. MayRun (L.meaning (arc_value setup.library))
        (arc_value setup.program) (arc_value setup.plans) setup.items) }
    ensures named { IfOk result (λ setup. IsNamed (arc_value setup.program)) }
{
    let checked = checked_of(alloc, text, &library)?;
    let plans = compile(alloc, &checked)?;
    let items = items_of(alloc, &checked, given)?;
    let setup = setup_of(alloc, program_of(checked), plans, items, library)?;
    Ok(setup)
}

/// A core of the text's program, with a flow for each number.
pub fn open<L: Library>(
    alloc: Global,
    text: &[u8],
    given: &[Given],
    library: L,
) -> Result<Core<L>, Trouble> {
    let setup = set_up(alloc, text, given, library)?;
    let core = Core::new(alloc, setup)?;
    Ok(core)
}
