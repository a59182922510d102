//! Which words need threads, and which spell `serve`. No memory is taken to tell it.

ghost use Rattle.std.specs.Prelude.{◌↔◌, IsTrue};
ghost use Rattle.flux_cli.specs.declared.names.CommandName.TheVariants.{Run, Load};
ghost use Rattle.flux_cli.specs.Commands.{Command, Spells, IsServe, NeedsThreads};
ghost use Rattle.flux_cli.specs.steps.Given.{listed};
ghost use Rattle.flux_cli.specs.steps.Found.{IsThreaded};
ghost use Rattle.flux_cli.specs.steps.Asking.{AskThreads};

use crate::given::{Files, gather};
use crate::loads::{FIRST_LIMIT, LOAD_LIMIT};
use crate::names::{CommandName, read_name};
use crate::serves::is_serve;
use crate::values::{read_format, read_number, read_threaded};
use flux_values::Bytes;

/// Whether the runtime that is given starts threads.
fn is_threaded(given: Option<&[u8]>) -> bool
    ensures { IsTrue result ↔ IsThreaded (listed given.entry) }
{
    let Some(value) = given else {
        return false;
    };
    read_threaded(value).is_some()
}

/// Whether the words after `run` do.
fn run_needs(words: &[Bytes]) -> bool
    ensures { IsTrue result ↔ AskThreads Run words.now }
{
    let Some(given) = gather(words) else {
        return false;
    };
    if given.serves() {
        return false;
    }
    if given.simulates() {
        return false;
    }
    let Files::Two(_, _) = given.files else {
        return false;
    };
    let Some(_) = read_format(given.journal) else {
        return false;
    };
    is_threaded(given.runtime)
}

/// Whether the words after `load` do.
fn load_needs(words: &[Bytes]) -> bool
    ensures { IsTrue result ↔ AskThreads Load words.now }
{
    let Some(given) = gather(words) else {
        return false;
    };
    if given.docs.is_some() || given.journal.is_some() {
        return false;
    }
    if given.serves() {
        return false;
    }
    if given.simulates() {
        return false;
    }
    let Files::Two(count, first) = given.files else {
        return false;
    };
    let Some(_) = read_number(count, 1, LOAD_LIMIT) else {
        return false;
    };
    let Some(_) = read_number(first, 0, FIRST_LIMIT) else {
        return false;
    };
    is_threaded(given.runtime)
}

/// Whether the words after a command's name do.
fn behind_needs(name: CommandName, words: &[Bytes]) -> bool
    ensures { IsTrue result ↔ AskThreads name words.now }
{
    match name {
        CommandName::Run => run_needs(words),
        CommandName::Load => load_needs(words),
        CommandName::Serve => is_serve(words),
        CommandName::Check => false,
        CommandName::Plan => false,
        CommandName::Format => false,
        CommandName::Audit => false,
        CommandName::Help => false,
        CommandName::Simulate => false,
        CommandName::Swarm => false,
    }
}

/// Whether the words spell `serve`.
pub fn spells_serve(words: &[Bytes]) -> bool
    ensures { IsTrue result ↔ ((command : Command) × Spells words.now command × IsServe command) }
{
    match words {
        [first, rest @ ..] if first.as_bytes() == b"serve".as_slice() => is_serve(rest),
        _ => false,
    }
}

/// Whether the words spell a command that needs threads: `serve`, or a `run` or a `load` by `perflow`, `pool=N` or `event=H`.
pub fn needs_threads(words: &[Bytes]) -> bool
    ensures { IsTrue result ↔ ((command : Command) × Spells words.now command
        × NeedsThreads command) }
{
    let [first, rest @ ..] = words else {
        return false;
    };
    match read_name(first.as_bytes()) {
        Some(name) => behind_needs(name, rest),
        None => false,
    }
}
