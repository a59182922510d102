//! The words after `load`.

ghost use Rattle.std.specs.Prelude.{IfOk};
ghost use Rattle.flux_cli.specs.declared.names.CommandName.TheVariants.{Load};
ghost use Rattle.flux_cli.specs.steps.Asking.{IsAskedBehind};

use crate::commands::Asked;
use crate::given::{Files, gather};
use crate::values::{read_number, read_runtime};
use flux_values::{Bytes, Memory};
use std::alloc::Global;

/// A load has at most so many items.
pub const LOAD_LIMIT: u32 = 4_096;

/// The greatest number from which the items of a load are made.
pub const FIRST_LIMIT: u32 = 4_294_967_295;

/// What they ask for.
pub fn read_load<'a>(alloc: Global, words: &'a [Bytes]) -> Result<Option<Asked<'a>>, Memory>
    ensures { IfOk result (IsAskedBehind Load words.now) }
{
    let Some(given) = gather(words) else {
        return Ok(None);
    };
    if given.docs.is_some() || given.journal.is_some() {
        return Ok(None);
    }
    if given.serves() {
        return Ok(None);
    }
    if given.simulates() {
        return Ok(None);
    }
    let Files::Two(count, first) = given.files else {
        return Ok(None);
    };
    let Some(count) = read_number(count, 1, LOAD_LIMIT) else {
        return Ok(None);
    };
    let Some(first) = read_number(first, 0, FIRST_LIMIT) else {
        return Ok(None);
    };
    let Some(runtime) = read_runtime(alloc, given.runtime)? else {
        return Ok(None);
    };
    Ok(Some(Asked::Load {
        count,
        first,
        runtime,
    }))
}
