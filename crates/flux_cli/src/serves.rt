//! The words after `serve`.

ghost use Rattle.std.specs.Prelude.{◌↔◌, ℕ, List, IfOk, IsTrue};
ghost use Rattle.flux_cli.specs.declared.names.CommandName.TheVariants.{Serve};
ghost use Rattle.flux_cli.specs.Forms.{Serving, HasParts, FitsServe};
ghost use Rattle.flux_cli.specs.steps.Asking.{IsAskedBehind, IsServeRead};

use crate::commands::Asked;
use crate::given::{Files, gather};
use crate::replies::{is_replying, read_replying};
use crate::values::{read_batches, read_port};
use flux_values::{Bytes, Memory};
use std::alloc::Global;

/// What they ask for, with both options that say when replies are written as they are spelled.
#[derive(Clone, Copy)]
pub struct Service<'a> {
    file: &'a [u8],
    port: u16,
    batches: u32,
    docs: Option<&'a [u8]>,
    runtime: Option<&'a [u8]>,
    at_once: Option<&'a [u8]>,
}

/// All of it but when replies are written.
fn read_service(words: &[Bytes]) -> Option<Service<'_>>
    ensures { IsServeRead words.now result }
{
    let given = gather(words)?;
    let Files::One(file) = given.files else {
        return None;
    };
    if given.journal.is_some() {
        return None;
    }
    if given.simulates() {
        return None;
    }
    let port = read_port(given.port)?;
    let batches = read_batches(given.batches)?;
    Some(Service {
        file,
        port,
        batches,
        docs: given.docs,
        runtime: given.runtime,
        at_once: given.at_once,
    })
}

/// What they ask for.
pub fn read_serve<'a>(alloc: Global, words: &'a [Bytes]) -> Result<Option<Asked<'a>>, Memory>
    ensures { IfOk result (IsAskedBehind Serve words.now) }
{
    let Some(service) = read_service(words) else {
        return Ok(None);
    };
    let Some(replying) = read_replying(alloc, service.runtime, service.at_once)? else {
        return Ok(None);
    };
    Ok(Some(Asked::Serve {
        file: service.file,
        port: service.port,
        batches: service.batches,
        docs: service.docs,
        replying,
    }))
}

/// Whether they ask for anything, which is decided without memory.
pub fn is_serve(words: &[Bytes]) -> bool
    ensures { IsTrue result ↔ ((file : List ℕ) × (serving : Serving) × HasParts words.now (FitsServe file serving)) }
{
    match read_service(words) {
        Some(service) => is_replying(service.runtime, service.at_once),
        None => false,
    }
}
