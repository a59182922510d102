//! The commands of the command line.

ghost use Rattle.std.specs.Prelude.{◌≡◌, IfOk, IfSome, IfNone, Some, option_map};
ghost use Rattle.flux_cli.specs.Commands.{Command, Spells, SpellsNone};
ghost use Rattle.flux_cli.specs.Asking.{asked};
ghost use Rattle.flux_cli.specs.steps.Asking.{IsAsked, IsAskedBehind, IsFileRead};

use crate::audits::read_audit;
use crate::costs::{Costs, Processors};
use crate::loads::read_load;
use crate::names::{CommandName, read_name};
use crate::parts::is_positional;
use crate::replies::Replying;
use crate::runs::read_run;
use crate::serves::{is_serve, read_serve};
use crate::simulations::read_simulation;
use crate::swarms::read_swarm;
use crate::values::{JournalFormat, Runtime};
use flux_values::{Bytes, Memory};
use std::alloc::Global;

/// What the words ask for, with the names of files.
#[derive(Drop)]
pub enum Asked<'a> {
    Check {
        file: &'a [u8],
    },
    Plan {
        file: &'a [u8],
    },
    Format {
        file: &'a [u8],
    },
    Run {
        file: &'a [u8],
        items: &'a [u8],
        runtime: Runtime,
        /// The folder of documents.
        docs: Option<&'a [u8]>,
        journal: JournalFormat,
    },
    Audit {
        file: &'a [u8],
        items: &'a [u8],
        journal: &'a [u8],
        /// The folder of documents.
        docs: Option<&'a [u8]>,
    },
    Load {
        /// How many items, from 1 to 4,096.
        count: u32,
        first: u32,
        runtime: Runtime,
    },
    Serve {
        file: &'a [u8],
        port: u16,
        /// How many batches, one at least.
        batches: u32,
        /// The folder of documents.
        docs: Option<&'a [u8]>,
        replying: Replying,
    },
    Help,
    Simulate {
        file: &'a [u8],
        items: &'a [u8],
        processors: Processors,
        costs: Costs,
        /// The folder of documents.
        docs: Option<&'a [u8]>,
    },
    Swarm {
        file: &'a [u8],
        items: &'a [u8],
        journal: &'a [u8],
        /// The 20 bytes that its word spells.
        hash: Bytes,
        /// The folder of documents.
        docs: Option<&'a [u8]>,
    },
}

/// The one file that words are.
fn read_file<'a>(words: &'a [Bytes]) -> Option<&'a [u8]>
    ensures { IsFileRead words.now result }
{
    let [word] = words else {
        return None;
    };
    let file = word.as_bytes();
    if is_positional(file) {
        Some(file)
    } else {
        None
    }
}

/// What the words after a command's name ask for.
fn read_behind<'a>(
    alloc: Global,
    name: CommandName,
    words: &'a [Bytes],
) -> Result<Option<Asked<'a>>, Memory>
    ensures { IfOk result (IsAskedBehind name words.now) }
{
    match name {
        CommandName::Check => Ok(read_file(words).map(|file| Asked::Check { file })),
        CommandName::Plan => Ok(read_file(words).map(|file| Asked::Plan { file })),
        CommandName::Format => Ok(read_file(words).map(|file| Asked::Format { file })),
        CommandName::Run => read_run(alloc, words),
        CommandName::Audit => Ok(read_audit(words)),
        CommandName::Load => read_load(alloc, words),
        CommandName::Serve => read_serve(alloc, words),
        CommandName::Help if words.is_empty() => Ok(Some(Asked::Help)),
        CommandName::Help => Ok(None),
        CommandName::Simulate => read_simulation(alloc, words),
        CommandName::Swarm => read_swarm(alloc, words),
    }
}

fn read_command<'a>(alloc: Global, words: &'a [Bytes]) -> Result<Option<Asked<'a>>, Memory>
    ensures { IfOk result (IsAsked words.now) }
{
    let [first, rest @ ..] = words else {
        return Ok(None);
    };
    let Some(name) = read_name(first.as_bytes()) else {
        return Ok(None);
    };
    read_behind(alloc, name, rest)
}

/// What the words ask for; None exactly where they spell no command.
///
/// The words are those after the program's own name: `check FILE`, `plan FILE`, `format FILE`,
/// `run FILE ITEMS [--runtime R] [--docs DIR] [--journal J]`, `audit FILE ITEMS JOURNAL [--docs DIR]`,
/// `load N K [--runtime R]`, `serve FILE --port P [--docs DIR] [--batches B] [--runtime R] [--at-once W]` without
/// both of the last two, `help` or `--help`,
/// `simulate FILE ITEMS --processors N [--costs LIST] [--docs DIR]`, and
/// `swarm FILE ITEMS JOURNAL HASH [--docs DIR]`.
pub fn read_words<'a>(alloc: Global, words: &'a [Bytes]) -> Result<Option<Asked<'a>>, Memory>
    // Each answer has its cause.
    ensures found { IfOk result (λ found. IfSome found (λ a. Spells words.now (asked a))) }
    ensures none { IfOk result (λ found. IfNone found (SpellsNone words.now)) }
    // Each command has its answer, but for want of memory.
    ensures command { (command : Command) → Spells words.now command
        → IfOk result (λ found. option_map asked found ≡ Some command) }
{
    read_command(alloc, words)
}
