//! When the replies of a batch are written.

ghost use Rattle.std.specs.Prelude.{◌↔◌, IfOk, IsTrue};
ghost use Rattle.flux_cli.specs.Replies.{IsReplying};
ghost use Rattle.flux_cli.specs.steps.Given.{listed};
ghost use Rattle.flux_cli.specs.steps.Replies.{IsReplyingRead};

use crate::values::{Runtime, is_runtime, read_runtime, read_workers};
use crate::workers::Workers;
use flux_values::Memory;
use std::alloc::Global;

/// When the replies of a batch are written.
#[derive(Drop)]
pub enum Replying {
    /// At the end of the batch, which a runtime drives.
    AtEnd(Runtime),
    /// Each at the end of its flow, by so many workers.
    AtOnce(Workers),
}

/// What the values of `--runtime` and `--at-once` say.
pub fn read_replying(
    alloc: Global,
    runtime: Option<&[u8]>,
    at_once: Option<&[u8]>,
) -> Result<Option<Replying>, Memory>
    ensures { IfOk result (IsReplyingRead (listed runtime.entry) (listed at_once.entry)) }
{
    let Some(digits) = at_once else {
        return match read_runtime(alloc, runtime)? {
            Some(runtime) => Ok(Some(Replying::AtEnd(runtime))),
            None => Ok(None),
        };
    };
    if runtime.is_some() {
        return Ok(None);
    }
    match read_workers(digits) {
        Some(workers) => Ok(Some(Replying::AtOnce(workers))),
        None => Ok(None),
    }
}

/// Whether they say anything, which is decided without memory.
pub fn is_replying(runtime: Option<&[u8]>, at_once: Option<&[u8]>) -> bool
    ensures { IsTrue result ↔ ((replying : Replying) × IsReplying (listed runtime.entry) (listed at_once.entry) replying) }
{
    let Some(digits) = at_once else {
        return is_runtime(runtime);
    };
    if runtime.is_some() {
        return false;
    }
    read_workers(digits).is_some()
}
