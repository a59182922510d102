//! The documents of a command.

ghost use Rattle.std.specs.Prelude.{◌≡◌, ◌≤◌, ◌++◌, IfOk, IfErr, option_to_list, option_copied};
ghost use Rattle.std.specs.Arc.{arc_value};
ghost use Rattle.flux_outside.specs.Stores.{AskedFor};
ghost use Rattle.flux_docs.specs.Folders.{GivesDocs};
ghost use Rattle.flux_commands.specs.BuiltIn.{docs_in};
ghost use Rattle.flux_commands.specs.Documents.{AreDocs};
ghost use Rattle.flux_commands.specs.steps.Refusals.{Counts};
ghost use Rattle.flux_commands.specs.steps.Documents.{IsUnreadFolder, AreUnread};

use crate::built_in::BuiltIn;
use crate::refusals::Refusal;
use flux_docs::{DocsFault, read_docs};
use flux_library::Docs;
use flux_outside::Folder;
use flux_values::Memory;
use nodes_all::All;
use nodes_joined::Joined;
use nodes_own::Own;
use std::alloc::Global;
use std::sync::Arc;

/// The documents of a folder.
fn load<'a, F: Folder>(alloc: Global, folder: &mut F, dir: &'a [u8]) -> Result<Docs, Refusal<'a>>
    ensures kept { F.folders folder.new ≡ F.folders folder.old }
    ensures asked { AskedFor (F.asked folder.old) (F.asked folder.new) dir.now }
    ensures later { F.faults folder.old ≤ F.faults folder.new }
    ensures docs { IfOk result (GivesDocs (F.folders folder.old) dir.now) }
    ensures unread { IfErr result (IsUnreadFolder (F.folders folder.old) dir.now) }
    ensures counts { Counts result (F.faults folder.old) (F.faults folder.new) }
{
    match read_docs(alloc, folder, dir) {
        Ok(docs) => Ok(docs),
        Err(DocsFault::Missing) => Err(Refusal::Missing(dir)),
        Err(DocsFault::TooLong) => Err(Refusal::Missing(dir)),
        Err(DocsFault::Failed) => Err(Refusal::Read),
        Err(DocsFault::Memory) => Err(Refusal::Memory),
    }
}

/// The documents of the folder, where one is named; none where none is.
pub fn load_docs<'a, F: Folder>(
    alloc: Global,
    folder: &mut F,
    dir: Option<&'a [u8]>,
) -> Result<Docs, Refusal<'a>>
    ensures kept { F.folders folder.new ≡ F.folders folder.old }
    ensures asked { F.asked folder.new ≡ F.asked folder.old
        ++ option_to_list (option_copied dir.entry) }
    ensures later { F.faults folder.old ≤ F.faults folder.new }
    ensures docs { IfOk result (AreDocs (F.folders folder.old) (option_copied dir.entry)) }
    ensures unread { IfErr result (AreUnread (F.folders folder.old) (option_copied dir.entry)) }
    ensures counts { Counts result (F.faults folder.old) (F.faults folder.new) }
{
    match dir {
        None => Ok(Docs::new(alloc)),
        Some(dir) => load(alloc, folder, dir),
    }
}

/// The library of these documents.
pub fn share(alloc: Global, docs: Docs) -> Result<Arc<BuiltIn>, Memory>
    ensures { IfOk result (λ library. docs_in (arc_value library) ≡ docs) }
{
    let first = All { docs };
    Ok(Arc::new(alloc, Joined { first, second: Own })?)
}
