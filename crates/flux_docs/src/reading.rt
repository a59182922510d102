//! Documents, read one after another.

ghost use Rattle.std.specs.Prelude.{◌≡◌, ◌≤◌, IfOk, IfErr, IfSome, Some};
ghost use Rattle.flux_outside.specs.Stores.{AskedFor};
ghost use Rattle.flux_docs.specs.Causes.{HasDocsCause};
ghost use Rattle.flux_docs.specs.Folders.{GivesDocs, IsUnread};
ghost use Rattle.flux_docs.specs.steps.Reading.{AreRead};

use crate::faults::DocsFault;
use flux_library::{BODY_LIMIT, Docs};
use flux_outside::{Folder, NextDoc};
use std::alloc::Global;

/// A folder gives at most so many documents.
pub const DOC_LIMIT: usize = 4_096;

/// The bodies of a folder's documents have at most so many bytes together.
pub const BODIES_LIMIT: usize = 67_108_864;

/// The documents that are left of an open folder.
fn read_left<F: Folder>(alloc: Global, folder: &mut F) -> Result<Docs, DocsFault>
    ensures kept { F.folders folder.new ≡ F.folders folder.old }
    ensures asked { F.asked folder.new ≡ F.asked folder.old }
    ensures told { IfSome (F.left folder.old) (λ held. AreRead (Some held) result) }
    ensures cause { HasDocsCause (F.faults folder.old) (F.faults folder.new) result }
{
    let mut docs = Docs::new(alloc);
    let mut count = 0;
    let mut size = 0;
    'docs: loop {
        match folder.next_doc(alloc, BODY_LIMIT)? {
            NextDoc::NoMore => return Ok(docs),
            NextDoc::Longer => return Err(DocsFault::TooLong),
            NextDoc::Doc(name, body) => {
                count += 1;
                size += body.as_bytes().len();
                if count > DOC_LIMIT || size > BODIES_LIMIT {
                    return Err(DocsFault::TooLong);
                }
                let _ = docs.add(name, body)?;
            }
        }
    }
}

/// The documents of a folder, if there is one.
fn read_folder<F: Folder>(alloc: Global, folder: &mut F, dir: &[u8]) -> Result<Docs, DocsFault>
    ensures kept { F.folders folder.new ≡ F.folders folder.old }
    ensures asked { AskedFor (F.asked folder.old) (F.asked folder.new) dir.now }
    ensures told { IfSome (F.folders folder.old) (λ folders. AreRead (folders dir.now) result) }
    ensures cause { HasDocsCause (F.faults folder.old) (F.faults folder.new) result }
{
    if folder.open(dir)? {
        read_left(alloc, folder)
    } else {
        Err(DocsFault::Missing)
    }
}

/// The documents of a folder by name.
///
/// A document has at most 1,048,576 bytes; a folder has at most 4,096 documents, and their bodies at most
/// 67,108,864 bytes together. Where the folder gives a name twice its first document is used, and both
/// count for the limits.
pub fn read_docs<F: Folder>(alloc: Global, folder: &mut F, dir: &[u8]) -> Result<Docs, DocsFault>
    // Where folders are reported, what they hold decides, unless the folder failed or memory was short.
    ensures docs { IfOk result (GivesDocs (F.folders folder.old) dir.now) }
    ensures unread { IfErr result (IsUnread (F.folders folder.old) dir.now) }
    // The count of faults rose exactly where the folder failed.
    ensures cause { HasDocsCause (F.faults folder.old) (F.faults folder.new) result }
    ensures asked { AskedFor (F.asked folder.old) (F.asked folder.new) dir.now }
    ensures kept { F.folders folder.new ≡ F.folders folder.old }
{
    read_folder(alloc, folder, dir)
}
