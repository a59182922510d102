//! A folder in memory, whose calls fail where a test wants them to.

ghost use Rattle.std.specs.Prelude.{◌≡◌, ◌≤◌, [], length};

use crate::asked::AskedNames;
use crate::calls::Calls;
use crate::faults::{Failed, StoreFault, count_failure};
use crate::folders::{Folder, NextDoc};
use crate::memory::FileBytes;
use flux_values::{Bytes, List};
use std::alloc::Global;

/// One folder of documents in memory, which gives them in order, of one name too.
pub struct MemoryFolder {
    dir: Bytes,
    docs: List<FileBytes>,
    /// The place of the next document.
    next: usize,
    calls: Calls,
    asked: AskedNames,
    faults: u64,
}

impl Drop for MemoryFolder {
    fn drop(self) {
        let MemoryFolder {
            dir,
            docs,
            next,
            calls,
            asked,
            faults,
        } = self;
    }
}

impl MemoryFolder {
    ghost use Rattle.std.specs.Prelude.{Some};
    ghost use Rattle.std.specs.Str.{bytes_eq};
    ghost use Rattle.flux_outside.specs.MemoryFolders.{folder_docs, folder_left, folder_asked, folder_faults, IsNewFolder};

    /// A folder `dir` of these documents, which isn't open. The calls whose numbers are in `fails`, counted from 1, fail.
    pub fn new(dir: Bytes, docs: List<FileBytes>, fails: List<u64>) -> MemoryFolder
        ensures docs { folder_docs result dir ≡ Some docs }
        ensures left { folder_left result ≡ [] }
        ensures faultless { folder_faults result ≡ 0 }
        ensures asked { folder_asked result ≡ [] }
        ensures made { IsNewFolder result fails }
    {
        let next = docs.len();
        MemoryFolder {
            dir,
            docs,
            next,
            calls: Calls::new(fails),
            asked: AskedNames::new(),
            faults: 0,
        }
    }
}

impl Folder for MemoryFolder {
    ghost use Rattle.std.specs.Prelude.{Some, IfOk, IfSome, IsErrOf, IsErr};
    ghost use Rattle.flux_outside.specs.Causes.{HasCause, HasStoreCause};
    ghost use Rattle.flux_outside.specs.Stores.{AskedFor};
    ghost use Rattle.flux_outside.specs.Folders.{DocFits, IsOpened, IsNextOf};
    ghost use Rattle.flux_outside.specs.MemoryFolders.{folder_docs, folder_left, folder_asked, folder_faults, FolderIsToFail, FolderWasCalled};

    ghost folders = { λ folder. Some (folder_docs folder) };

    ghost left = { λ folder. Some (folder_left folder) };

    ghost asked = { λ folder. folder_asked folder };

    ghost faults = { λ folder. folder_faults folder };

    fn open(&mut self, dir: &[u8]) -> Result<bool, Failed>
        ensures kept { Some (folder_docs self.new) ≡ Some (folder_docs self.old) }
        ensures asked { AskedFor (folder_asked self.old) (folder_asked self.new) dir.now }
        ensures told { IfSome (Some (folder_docs self.old)) (λ folders.
            IsOpened (folders dir.now) (Some (folder_left self.old)) (Some (folder_left self.new)) result) }
        ensures cause { HasCause (folder_faults self.old) (folder_faults self.new) result }
        // The calls that are to fail do, and no other.
        ensures fails { FolderIsToFail self.old → IsErr result }
        ensures only { IsErr result → FolderIsToFail self.old }
        ensures called { FolderWasCalled self.old self.new }
    {
        self.asked.add(dir);
        if self.calls.count() {
            return Err(count_failure(&mut self.faults));
        }
        let found = self.dir.as_bytes() == dir;
        if found {
            self.next = 0;
        }
        Ok(found)
    }

    fn next_doc(&mut self, alloc: Global, max: usize) -> Result<NextDoc, StoreFault>
        ensures kept { Some (folder_docs self.new) ≡ Some (folder_docs self.old) }
        ensures asked { folder_asked self.new ≡ folder_asked self.old }
        ensures limit { IfOk result (DocFits max) }
        ensures told { IfSome (Some (folder_left self.old)) (λ docs.
            IsNextOf docs max result (Some (folder_left self.new))) }
        ensures cause { HasStoreCause (folder_faults self.old) (folder_faults self.new) result }
        ensures fails { FolderIsToFail self.old → IsErrOf result StoreFault.Failed }
        ensures only { IsErrOf result StoreFault.Failed → FolderIsToFail self.old }
        ensures called { FolderWasCalled self.old self.new }
    {
        if self.calls.count() {
            return Err(count_failure(&mut self.faults).into());
        }
        if self.next >= self.docs.len() {
            return Ok(NextDoc::NoMore);
        }
        let doc = &self.docs.as_slice()[self.next];
        if doc.body.as_bytes().len() > max {
            return Ok(NextDoc::Longer);
        }
        let name = Bytes::copy(alloc, doc.name.as_bytes())?;
        let body = Bytes::copy(alloc, doc.body.as_bytes())?;
        self.next += 1;
        Ok(NextDoc::Doc(name, body))
    }
}
