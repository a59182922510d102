//! The words after `run`.

ghost use Rattle.std.specs.Prelude.{IfOk};
ghost use Rattle.flux_cli.specs.declared.names.CommandName.TheVariants.{Run};
ghost use Rattle.flux_cli.specs.steps.Asking.{IsAskedBehind};

use crate::commands::Asked;
use crate::given::{Files, gather};
use crate::values::{read_format, read_runtime};
use flux_values::{Bytes, Memory};
use std::alloc::Global;

/// What they ask for.
pub fn read_run<'a>(alloc: Global, words: &'a [Bytes]) -> Result<Option<Asked<'a>>, Memory>
    ensures { IfOk result (IsAskedBehind Run words.now) }
{
    let Some(given) = gather(words) else {
        return Ok(None);
    };
    if given.serves() {
        return Ok(None);
    }
    if given.simulates() {
        return Ok(None);
    }
    let Files::Two(file, items) = given.files else {
        return Ok(None);
    };
    let Some(journal) = read_format(given.journal) else {
        return Ok(None);
    };
    let Some(runtime) = read_runtime(alloc, given.runtime)? else {
        return Ok(None);
    };
    Ok(Some(Asked::Run {
        file,
        items,
        runtime,
        docs: given.docs,
        journal,
    }))
}
