//! The words after `simulate`.

ghost use Rattle.std.specs.Prelude.{IfOk};
ghost use Rattle.flux_cli.specs.declared.names.CommandName.TheVariants.{Simulate};
ghost use Rattle.flux_cli.specs.steps.Given.{listed};
ghost use Rattle.flux_cli.specs.steps.Found.{IsProcessorsRead, AreCostsSpelled, AreCostsRead};
ghost use Rattle.flux_cli.specs.steps.Asking.{IsAskedBehind};

use crate::commands::Asked;
use crate::costs::{COST_LIMIT, COSTS_LIMIT, Costs, PROCESSOR_LIMIT, Processors};
use crate::given::{Files, gather};
use crate::values::read_number;
use flux_values::{Bytes, List, Memory};
use std::alloc::Global;

/// How many processors are given.
fn read_processors(given: Option<&[u8]>) -> Option<Processors>
    ensures { IsProcessorsRead (listed given.entry) result }
{
    match read_number(given?, 1, PROCESSOR_LIMIT) {
        Some(count) => Some(Processors { count }),
        None => None,
    }
}

/// The costs of a list, with commas between them.
fn read_list(alloc: Global, list: &[u8]) -> Result<Option<Costs>, Memory>
    ensures { IfOk result (AreCostsSpelled list.now) }
{
    let mut costs = List::new(alloc);
    'costs: for digits in list.split(|byte| *byte == b',') {
        if costs.len() == COSTS_LIMIT {
            return Ok(None);
        }
        match read_number(digits, 1, COST_LIMIT) {
            Some(cost) => costs.add(cost)?,
            None => return Ok(None),
        }
    }
    Ok(Some(Costs { list: costs }))
}

/// The costs that are given, or none.
fn read_costs(alloc: Global, given: Option<&[u8]>) -> Result<Option<Costs>, Memory>
    ensures { IfOk result (AreCostsRead (listed given.entry)) }
{
    match given {
        Some(list) => read_list(alloc, list),
        None => Ok(Some(Costs {
            list: List::new(alloc),
        })),
    }
}

/// What they ask for.
pub fn read_simulation<'a>(alloc: Global, words: &'a [Bytes]) -> Result<Option<Asked<'a>>, Memory>
    ensures { IfOk result (IsAskedBehind Simulate words.now) }
{
    let Some(given) = gather(words) else {
        return Ok(None);
    };
    if given.runtime.is_some() || given.journal.is_some() {
        return Ok(None);
    }
    if given.serves() {
        return Ok(None);
    }
    let Files::Two(file, items) = given.files else {
        return Ok(None);
    };
    let Some(processors) = read_processors(given.processors) else {
        return Ok(None);
    };
    let Some(costs) = read_costs(alloc, given.costs)? else {
        return Ok(None);
    };
    Ok(Some(Asked::Simulate {
        file,
        items,
        processors,
        costs,
        docs: given.docs,
    }))
}
