//! Folders of documents, which are read one after another.

ghost use Rattle.std.specs.Prelude.{◌≡◌, ℕ, List, Option, IfOk, IfSome};
ghost use Rattle.flux_outside.specs.Causes.{HasCause, HasStoreCause};
ghost use Rattle.flux_outside.specs.Stores.{AskedFor};
ghost use Rattle.flux_outside.specs.Folders.{DocFits, IsOpened, IsNextOf};
ghost use Rattle.flux_outside.specs.declared.memory.FileBytes.{FileBytes};

use crate::faults::{Failed, StoreFault};
use flux_values::Bytes;
use std::alloc::Global;

/// The next document of a folder.
#[derive(Drop)]
pub enum NextDoc {
    /// Its name and its body.
    Doc(Bytes, Bytes),
    /// There is a document, and it has more bytes than were asked for.
    Longer,
    NoMore,
}

/// Gives the documents of a folder.
pub trait Folder {
    /// The documents of each folder by its name, in order, where they are reported.
    ghost folders: { Self → Option (List ℕ → Option (List FileBytes)) };

    /// The documents left of the folder that was opened last, where they are reported.
    ghost left: { Self → Option (List FileBytes) };

    /// The names that it was asked for, in order.
    ghost asked: { Self → List (List ℕ) };

    /// How often it has failed.
    ghost faults: { Self → ℕ };

    /// Opens a folder, and answers whether there is one of this name. It takes no memory.
    fn open(&mut self, dir: &[u8]) -> Result<bool, Failed>
        ensures kept { folders self.new ≡ folders self.old }
        ensures asked { AskedFor (asked self.old) (asked self.new) dir.now }
        ensures told { IfSome (folders self.old)
            (λ folders. IsOpened (folders dir.now) (left self.old) (left self.new) result) }
        ensures cause { HasCause (faults self.old) (faults self.new) result };

    /// The next document, if it has at most `max` bytes. Where it has more, it is left.
    fn next_doc(&mut self, alloc: Global, max: usize) -> Result<NextDoc, StoreFault>
        ensures kept { folders self.new ≡ folders self.old }
        ensures asked { asked self.new ≡ asked self.old }
        ensures limit { IfOk result (DocFits max) }
        ensures told { IfSome (left self.old) (λ docs. IsNextOf docs max result (left self.new)) }
        ensures cause { HasStoreCause (faults self.old) (faults self.new) result };
}
