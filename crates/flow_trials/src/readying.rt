//! From a text and the numbers that its sources give to what can be simulated.

ghost use Rattle.std.specs.Prelude.{◌≡◌, ◌≤◌, IfOk, IsTrue, length};
ghost use Rattle.std.specs.List.{AllByRecursion, slice_index, sum_by};
ghost use Rattle.flow_state.specs.States.{MayRun};
ghost use Rattle.flow_trials.specs.Ready.{IsOpened, CanSimulate};

use flow_core::Core;
use flux_compile::compile;
use flux_hoist::Checked;
use flux_library::Library;
use flux_model::{Item, Program};
use flux_plan::VerifiedPlan;
use flux_values::{List, Memory};
use plain_journals::Given;
use std::alloc::Global;
use trial_ends::Trouble;
use trial_programs::{checked_of, items_of, program_of, setup_of};

/// The most that the sizes of the items' sources sum to.
const SIZE_LIMIT: u64 = 4_194_304;

/// A core whose flows have done nothing, and what the calls of each node cost.
#[derive(Drop)]
pub struct Ready<L: Library> {
    pub core: Core<L>,
    pub costs: List<u32>,
}

/// The size of an item's source.
fn size_of(sizes: &[u32], item: &Item) -> u64
    ensures { let of = item.now in result ≡ slice_index sizes.now of.source.0 }
{
    match sizes.get(item.source.0 as usize) {
        Some(size) => u64::from(*size),
        None => 0,
    }
}

/// Whether the sizes of the items' sources are within the limit.
fn are_small(sizes: &[u32], items: &[Item]) -> bool
    ensures { IsTrue result → sum_by (λ item. slice_index sizes.now item.source.0) items.now ≤ 4194304 }
{
    let mut left = SIZE_LIMIT;
    for item in items {
        let size = size_of(sizes, item);
        if size > left {
            return false;
        }
        left -= size;
    }
    true
}

/// Whether items of a program are within the limit.
fn fit(checked: &Checked, items: &List<Item>) -> bool
    ensures { IsTrue result → sum_by (λ item. slice_index checked.now.sizes item.source.0) items.now ≤ 4194304 }
{
    are_small(checked.sizes.as_slice(), items.as_slice())
}

/// What the calls of a node cost: what is given for it, or 1.
fn cost_of(costs: &[u32], node: usize) -> u32 {
    match costs.get(node) {
        Some(cost) => *cost,
        None => 1,
    }
}

/// A cost for each of so many nodes: those that are given, and 1 for all others.
fn all_costs(alloc: Global, nodes: usize, costs: &[u32]) -> Result<List<u32>, Trouble>
    ensures each { IfOk result (λ all. length all ≡ nodes) }
    ensures within { IfOk result (AllByRecursion (λ cost. (1 ≤ cost) × (cost ≤ 1000))) }
{
    let mut all = List::new(alloc);
    for node in 0..nodes {
        let cost = cost_of(costs, node);
        if cost < 1 || cost > 1_000 {
            return Err(Trouble::Words);
        }
        all.add(cost)?;
    }
    Ok(all)
}

/// A core whose flows have done nothing.
fn open<L: Library>(
    alloc: Global,
    program: Program,
    plans: List<VerifiedPlan>,
    items: List<Item>,
    library: L,
) -> Result<Core<L>, Memory>
    requires { MayRun (L.meaning library) program plans items }
    ensures { IfOk result (IsOpened program items) }
{
    let setup = setup_of(alloc, program, plans, items, library)?;
    let core = Core::new(alloc, setup)?;
    Ok(core)
}

/// A core of the text's program, with a flow for each number, and what the calls of each node cost.
pub fn ready_of<L: Library>(
    alloc: Global,
    text: &[u8],
    given: &[Given],
    costs: &[u32],
    library: L,
) -> Result<Ready<L>, Trouble>
    ensures { IfOk result (λ ready. CanSimulate L.meaning ready.core ready.costs) }
{
    let checked = checked_of(alloc, text, &library)?;
    let costs = all_costs(alloc, checked.program.nodes.len(), costs)?;
    let items = items_of(alloc, &checked, given)?;
    if !fit(&checked, &items) {
        return Err(Trouble::Wrong);
    }
    let plans = compile(alloc, &checked)?;
    let core = open(alloc, program_of(checked), plans, items, library)?;
    Ok(Ready { core, costs })
}
