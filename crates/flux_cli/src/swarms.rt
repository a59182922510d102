//! The words after `swarm`.

ghost use Rattle.std.specs.Prelude.{IfOk};
ghost use Rattle.flux_cli.specs.declared.names.CommandName.TheVariants.{Swarm};
ghost use Rattle.flux_cli.specs.steps.Asking.{IsAskedBehind};

use crate::commands::Asked;
use crate::given::{Files, gather};
use flux_values::{Bytes, Memory};
use nodes_tracker::read_hash;
use std::alloc::Global;

/// What they ask for.
pub fn read_swarm<'a>(alloc: Global, words: &'a [Bytes]) -> Result<Option<Asked<'a>>, Memory>
    ensures { IfOk result (IsAskedBehind Swarm words.now) }
{
    let Some(given) = gather(words) else {
        return Ok(None);
    };
    if given.runtime.is_some() || given.journal.is_some() {
        return Ok(None);
    }
    if given.serves() {
        return Ok(None);
    }
    if given.simulates() {
        return Ok(None);
    }
    let Files::Four(file, items, journal, digits) = given.files else {
        return Ok(None);
    };
    let Some(hash) = read_hash(alloc, digits)? else {
        return Ok(None);
    };
    Ok(Some(Asked::Swarm {
        file,
        items,
        journal,
        hash: Bytes::copy(alloc, hash.as_bytes())?,
        docs: given.docs,
    }))
}
