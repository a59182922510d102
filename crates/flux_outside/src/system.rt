//! The files of the system: each is opened and read here alone, where names are noted and failures counted.

ghost use Rattle.std.specs.Prelude.{◌≡◌, ◌≤◌, [], Err, IsErr};
ghost use Rattle.std.specs.Str.{IsUtf8};
ghost use Rattle.std.specs.Io.{ReadsAtMost};
ghost use Rattle.std.specs.Io.KnownBytes.{ReadConsumes};
ghost use Rattle.flux_outside.specs.Causes.{Rose, one_fault_more, HasCause, HasStoreCause, CountsFault};
ghost use Rattle.flux_outside.specs.Stores.{AskedFor};
ghost use Rattle.flux_outside.specs.Opening.{CountsOpening};
ghost use Rattle.flux_outside.specs.Told.{fault_of};

use crate::asked::AskedNames;
use crate::faults::{Failed, StoreFault, count_failure};
use crate::interrupted::read_on;
use crate::told::{entry_told, fault_of, folder_told, kind_told, opened};
use std::alloc::Global;
use std::fs;
use std::fs::{DirEntry, ReadDir};
use std::io::{ErrorKind, Read};
use std::rt::Files;

/// The files of the system, with the names that were asked for and the count of faults.
#[derive(Drop)]
pub struct SystemFiles<R> {
    runtime: R,
    asked: AskedNames,
    faults: u64,
}

/// A file that is open for reading.
#[derive(Drop)]
pub struct OpenFile<F> {
    pub reader: F,
}

/// Why a file was not opened.
#[derive(Clone, Copy)]
pub enum NotOpened {
    Missing,
    Memory,
    /// The system failed, and the count of faults rose.
    Failed,
}

/// What an entry of a folder is.
#[derive(Clone, Copy)]
pub enum EntryKind {
    File,
    Folder,
    /// A link, a pipe or whatever else.
    Other,
}

impl<R> SystemFiles<R> {
    /// Counts a failure.
    pub fn fail(&mut self) -> Failed
        ensures asked { self.new.asked ≡ self.old.asked }
        ensures counted { self.new.faults ≡ one_fault_more self.old.faults }
        ensures later { self.old.faults ≤ self.new.faults }
        ensures rose { Rose self.old.faults self.new.faults }
    {
        count_failure(&mut self.faults)
    }

    /// The fault for an error of the system, which is counted where it is a failure.
    fn refuse(&mut self, kind: ErrorKind) -> StoreFault
        ensures fault { result ≡ fault_of kind }
        ensures asked { self.new.asked ≡ self.old.asked }
        ensures later { self.old.faults ≤ self.new.faults }
        ensures cause { CountsFault self.old.faults self.new.faults result }
    {
        let fault = fault_of(kind);
        if let StoreFault::Failed = fault {
            let _ = count_failure(&mut self.faults);
        }
        fault
    }

    pub fn new(runtime: R) -> SystemFiles<R>
        ensures asked { result.asked.names ≡ [] }
        ensures faultless { result.faults ≡ 0 }
    {
        SystemFiles {
            runtime,
            asked: AskedNames::new(),
            faults: 0,
        }
    }

    /// Reads on in a file. What a signal interrupts is tried again.
    pub fn read<F: Read>(
        &mut self,
        file: &mut OpenFile<F>,
        buffer: &mut [u8],
    ) -> Result<usize, StoreFault>
        ensures bound { ReadsAtMost result buffer.new }
        ensures bytes { ReadConsumes (F.remaining file.old.reader) (F.remaining file.new.reader) result buffer.new }
        ensures asked { self.new.asked ≡ self.old.asked }
        ensures cause { HasStoreCause self.old.faults self.new.faults result }
    {
        match read_on(&mut file.reader, buffer) {
            Ok(count) => Ok(count),
            Err(kind) => Err(self.refuse(kind)),
        }
    }
}

impl<R: Files> SystemFiles<R> {
    /// Opens a file for reading. A name that is no UTF-8 fails, since std opens texts alone.
    pub fn open(&mut self, name: &[u8]) -> Result<OpenFile<R::File>, NotOpened>
        ensures asked { AskedFor self.old.asked.names self.new.asked.names name.now }
        ensures later { self.old.faults ≤ self.new.faults }
        ensures cause { CountsOpening self.old.faults self.new.faults result }
        ensures text { (IsUtf8 name.now → ⊥) → result ≡ Err NotOpened.Failed }
    {
        self.asked.add(name);
        let answer = match str::from_utf8(name) {
            Ok(path) => opened(fs::open(&self.runtime, path)),
            Err(_) => Err(NotOpened::Failed),
        };
        if let Err(NotOpened::Failed) = &answer {
            let _ = count_failure(&mut self.faults);
        }
        answer
    }
}

impl<R: Files> SystemFiles<R> {
    /// Whether there is a folder of a name. It takes no memory.
    pub fn is_folder(&mut self, name: &[u8]) -> Result<bool, Failed>
        ensures text { (IsUtf8 name.now → ⊥) → IsErr result }
        ensures asked { self.new.asked ≡ self.old.asked }
        ensures cause { HasCause self.old.faults self.new.faults result }
    {
        let Ok(path) = str::from_utf8(name) else {
            return Err(count_failure(&mut self.faults));
        };
        match folder_told(&fs::metadata(&self.runtime, path)) {
            Some(is) => Ok(is),
            None => Err(count_failure(&mut self.faults)),
        }
    }
}

impl<R: Files + AllocGlobal + Clone + Drop> SystemFiles<R> {
    /// The entries of a folder.
    pub fn read_folder(&mut self, name: &[u8]) -> Result<ReadDir<R, Global>, StoreFault>
        ensures text { (IsUtf8 name.now → ⊥) → result ≡ Err StoreFault.Failed }
        ensures asked { self.new.asked ≡ self.old.asked }
        ensures cause { HasStoreCause self.old.faults self.new.faults result }
    {
        let Ok(path) = str::from_utf8(name) else {
            return Err(count_failure(&mut self.faults).into());
        };
        match fs::read_dir(&self.runtime, path) {
            Ok(entries) => Ok(entries),
            Err(e) => Err(self.refuse(e.kind())),
        }
    }

    /// The next entry of a folder. A name that is no UTF-8 fails, since std gives texts alone.
    pub fn next_entry(
        &mut self,
        entries: &mut ReadDir<R, Global>,
    ) -> Result<Option<DirEntry<R, Global>>, StoreFault>
        ensures asked { self.new.asked ≡ self.old.asked }
        ensures cause { HasStoreCause self.old.faults self.new.faults result }
    {
        match entry_told(entries.next()) {
            Ok(entry) => Ok(entry),
            Err(kind) => Err(self.refuse(kind)),
        }
    }

    /// What an entry is itself, wherever a link may lead.
    pub fn kind_of(&mut self, entry: &DirEntry<R, Global>) -> Result<EntryKind, StoreFault>
        ensures asked { self.new.asked ≡ self.old.asked }
        ensures cause { HasStoreCause self.old.faults self.new.faults result }
    {
        match kind_told(&entry.file_type()) {
            Ok(kind) => Ok(kind),
            Err(kind) => Err(self.refuse(kind)),
        }
    }
}
