//! The folders of the system: a thin adapter, which tells nothing of what they hold.

ghost use Rattle.std.specs.Prelude.{◌≡◌, ◌++◌, ◌∷◌, [], ℕ, List, true, false, IfOk, IfSome, OnOk, OnErr, MatchOption};
ghost use Rattle.std.specs.Option.{option_map};
ghost use Rattle.flux_outside.specs.Causes.{HasCause, HasStoreCause};
ghost use Rattle.flux_outside.specs.Folders.{DocFits};
ghost use Rattle.flux_outside.specs.Told.{doc_of};
ghost use Rattle.flux_outside.specs.Walking.{turn_of, IsNext};

use crate::asked::AskedNames;
use crate::faults::{Failed, StoreFault};
use crate::folders::{Folder, NextDoc};
use crate::real::read_opened;
use crate::stores::File;
use crate::system::{EntryKind, SystemFiles};
use flux_values::{Bytes, List, Memory};
use std::alloc::Global;
use std::fs::{DirEntry, ReadDir};
use std::rt::Files;

/// The most subfolders of a folder, at all depths.
pub const SUBFOLDER_LIMIT: usize = 4096;

/// The greatest length of a path of the system, in bytes.
const PATH_LIMIT: usize = 4096;

/// The folders of the system, each with its subfolders. Documents have names relative to the folder, with `/` between parts.
/// What is neither a file nor a folder, as a link, is passed over.
pub struct RealFolder<R: Files + AllocGlobal + Clone + Drop> {
    files: SystemFiles<R>,
    asked: AskedNames,
    alloc: Global,
    /// The path of the folder that was opened last, with room for the longest one.
    root: Vec<u8>,
    /// Whether the folder itself is still to be read.
    fresh: bool,
    /// The subfolders that are still to be read, by their names with a `/` at the end.
    pending: List<Bytes>,
    /// How many subfolders were found.
    found: usize,
    listing: Option<Listing<R>>,
    /// The entry that is looked at. It stays until its document was given, so that a refusal loses none.
    entry: Option<DirEntry<R, Global>>,
}

impl<R: Files + AllocGlobal + Clone + Drop> Drop for RealFolder<R> {
    fn drop(self) {
        let RealFolder {
            files,
            asked,
            alloc,
            root,
            fresh,
            pending,
            found,
            listing,
            entry,
        } = self;
    }
}

/// A folder whose entries are being read.
#[derive(Drop)]
struct Listing<R: Files + AllocGlobal + Clone + Drop> {
    /// What is before the names of its entries.
    prefix: Bytes,
    entries: ReadDir<R, Global>,
}

/// One step of a walk through a folder.
#[derive(Drop)]
enum Step {
    On,
    /// A file, by its name.
    File(Bytes),
    /// A subfolder too many.
    TooMany,
    Over,
}

/// What follows a step: another one, a file that is read, or an answer.
#[derive(Drop)]
enum Turn {
    On,
    Read(Bytes),
    Answer(NextDoc),
}

fn turn_of(step: Step) -> Turn
    ensures { result ≡ turn_of step }
{
    match step {
        Step::On => Turn::On,
        Step::File(name) => Turn::Read(name),
        Step::TooMany => Turn::Answer(NextDoc::Longer),
        Step::Over => Turn::Answer(NextDoc::NoMore),
    }
}

/// The document of a name with what was read under it; None where it isn't there any more.
fn doc_of(name: Bytes, file: File) -> Option<NextDoc>
    ensures { result ≡ doc_of name file }
{
    match file {
        File::Found(body) => Some(NextDoc::Doc(name, body)),
        File::Longer => Some(NextDoc::Longer),
        File::Missing => None,
    }
}

/// One name after another.
fn joined(alloc: Global, front: &[u8], back: &[u8]) -> Result<Bytes, Memory>
    ensures { IfOk result (λ name. name ≡ front.now ++ back.now) }
{
    let mut name = Bytes::copy(alloc, front)?;
    name.append(back)?;
    Ok(name)
}

/// The name of an entry of a folder, relative to the outermost one.
fn name_of<R: Files + AllocGlobal + Clone + Drop>(
    alloc: Global,
    listing: &Option<Listing<R>>,
    entry: &DirEntry<R, Global>,
) -> Result<Bytes, Memory>
    ensures { IfSome listing.now (λ listing.
        IfOk result (λ name. (rest : List ℕ) × (name ≡ listing.prefix ++ rest))) }
{
    match listing {
        Some(listing) => joined(
            alloc,
            listing.prefix.as_bytes(),
            entry.file_name().as_bytes(),
        ),
        None => Bytes::copy(alloc, entry.file_name().as_bytes()),
    }
}

impl<R: Files + AllocGlobal + Clone + Drop> RealFolder<R> {
    /// No folder is open yet. Room for a path is reserved here, so that opening takes no memory.
    pub fn new(alloc: Global, runtime: R) -> Result<RealFolder<R>, Memory>
        ensures asked { IfOk result (λ folder. folder.asked.names ≡ []) }
        ensures faultless { IfOk result (λ folder. folder.files.faults ≡ 0) }
    {
        let root = Vec::with_capacity(alloc, PATH_LIMIT)?;
        Ok(RealFolder {
            files: SystemFiles::new(runtime),
            asked: AskedNames::new(),
            alloc,
            root,
            fresh: false,
            pending: List::new(alloc),
            found: 0,
            listing: None,
            entry: None,
        })
    }

    /// Begins a walk through a folder. A path that there is no room for is a fault.
    fn begin(&mut self, dir: &[u8]) -> Result<(), Failed>
        ensures root { OnOk result (self.new.root.items ≡ dir.now) }
        ensures fresh { OnOk result (self.new.fresh ≡ true) }
        ensures pending { OnOk result (self.new.pending ≡ []) }
        ensures found { OnOk result (self.new.found ≡ 0) }
        ensures between { OnOk result ((self.new.listing ≡ None) × (self.new.entry ≡ None)) }
        ensures stands { OnErr result (self.new ≡ record self.old { files = self.new.files }) }
        ensures asked { self.new.asked ≡ self.old.asked }
        ensures cause { HasCause self.old.files.faults self.new.files.faults result }
    {
        if dir.len() > self.root.capacity() {
            return Err(self.files.fail());
        }
        self.root.clear();
        let _ = self.root.extend_from_slice(dir);
        self.pending = List::new(self.alloc);
        self.found = 0;
        self.listing = None;
        self.entry = None;
        self.fresh = true;
        Ok(())
    }

    /// A path: the folder's, and a name in it.
    fn path_of(&self, alloc: Global, name: &[u8]) -> Result<Bytes, Memory>
        ensures { IfOk result (λ path. path ≡ self.now.root.items ++ 47 ∷ name.now) }
    {
        let mut path = joined(alloc, self.root.as_slice(), b"/")?;
        path.append(name)?;
        Ok(path)
    }

    /// One step. Refused, the walk is where it was: no entry is lost but one that the system didn't give.
    fn step(&mut self, alloc: Global) -> Result<Step, StoreFault>
        ensures stands { OnErr result (self.new ≡ record self.old { files = self.new.files; listing = self.new.listing }) }
        ensures prefix { OnErr result (option_map (λ listing. listing.prefix) self.new.listing
            ≡ option_map (λ listing. listing.prefix) self.old.listing) }
        ensures asked { self.new.asked ≡ self.old.asked }
        ensures cause { HasStoreCause self.old.files.faults self.new.files.faults result }
    {
        if self.entry.is_some() {
            return self.look_at(alloc);
        }
        let Some(mut listing) = self.listing.take() else {
            return self.list_next(alloc);
        };
        let entry = self.files.next_entry(&mut listing.entries);
        self.listing = Some(listing);
        self.entry = entry?;
        if self.entry.is_none() {
            self.listing = None;
        }
        Ok(Step::On)
    }

    /// Goes on with the folder itself, or with the next subfolder.
    #[tactic(auto, using(crate::proofs::Lasts::last_taken))]
    fn list_next(&mut self, alloc: Global) -> Result<Step, StoreFault>
        ensures stands { OnErr result (self.new ≡ record self.old { files = self.new.files }) }
        ensures once { result ≡ Ok Step.On → self.new.fresh ≡ false }
        ensures begun { result ≡ Ok Step.On → MatchOption self.new.listing ⊥ (λ listing.
            IsNext self.old.fresh self.old.pending self.new.pending listing.prefix) }
        ensures asked { self.new.asked ≡ self.old.asked }
        ensures cause { HasStoreCause self.old.files.faults self.new.files.faults result }
    {
        let prefix = if self.fresh {
            Bytes::new(alloc)
        } else {
            match self.pending.last() {
                Some(prefix) => Bytes::copy(alloc, prefix.as_bytes())?,
                None => return Ok(Step::Over),
            }
        };
        let path = self.path_of(alloc, prefix.as_bytes())?;
        let entries = self.files.read_folder(path.as_bytes())?;
        if self.fresh {
            self.fresh = false;
        } else {
            let _ = self.pending.pop();
        }
        self.listing = Some(Listing { prefix, entries });
        Ok(Step::On)
    }

    /// What the entry is that is looked at. A file stays the entry until it was read.
    fn look_at(&mut self, alloc: Global) -> Result<Step, StoreFault>
        ensures stands { OnErr result (self.new ≡ record self.old { files = self.new.files }) }
        ensures asked { self.new.asked ≡ self.old.asked }
        ensures cause { HasStoreCause self.old.files.faults self.new.files.faults result }
    {
        let Some(entry) = &self.entry else {
            return Ok(Step::On);
        };
        let kind = self.files.kind_of(entry)?;
        let mut name = name_of(alloc, &self.listing, entry)?;
        match kind {
            EntryKind::File => return Ok(Step::File(name)),
            EntryKind::Folder if self.found >= SUBFOLDER_LIMIT => return Ok(Step::TooMany),
            EntryKind::Folder => {
                name.append(b"/")?;
                self.pending.add(name)?;
                self.found += 1;
            }
            EntryKind::Other => {}
        }
        self.entry = None;
        Ok(Step::On)
    }

    /// The document of the entry that is looked at, by its name. A file that isn't there any more is a fault.
    fn read(&mut self, alloc: Global, name: Bytes, max: usize) -> Result<NextDoc, StoreFault>
        ensures stands { OnErr result (self.new ≡ record self.old { files = self.new.files }) }
        ensures longer { result ≡ Ok NextDoc.Longer → self.new ≡ record self.old { files = self.new.files } }
        ensures asked { self.new.asked ≡ self.old.asked }
        ensures limit { IfOk result (DocFits max) }
        ensures cause { HasStoreCause self.old.files.faults self.new.files.faults result }
    {
        let path = self.path_of(alloc, name.as_bytes())?;
        let opened = self.files.open(path.as_bytes());
        let file = read_opened(&mut self.files, alloc, opened, max)?;
        match doc_of(name, file) {
            Some(NextDoc::Longer) => Ok(NextDoc::Longer),
            Some(doc) => {
                self.entry = None;
                Ok(doc)
            }
            None => Err(self.files.fail().into()),
        }
    }
}

impl<R: Files + AllocGlobal + Clone + Drop> Folder for RealFolder<R> {
    ghost use Rattle.std.specs.Prelude.{None, Ok, true, false, IsErr};
    ghost use Rattle.std.specs.Str.{IsUtf8};
    ghost use Rattle.flux_outside.specs.Stores.{AskedFor};

    ghost folders = { λ _. None };

    ghost left = { λ _. None };

    ghost asked = { λ folder. folder.asked.names };

    ghost faults = { λ folder. folder.files.faults };

    fn open(&mut self, dir: &[u8]) -> Result<bool, Failed>
        ensures asked { AskedFor self.old.asked.names self.new.asked.names dir.now }
        ensures cause { HasCause self.old.files.faults self.new.files.faults result }
        // Where no folder was opened, the walk is where it was.
        ensures stands { OnErr result (self.new ≡ record self.old { files = self.new.files; asked = self.new.asked }) }
        ensures absent { result ≡ Ok false → self.new ≡ record self.old { files = self.new.files; asked = self.new.asked } }
        ensures opened { result ≡ Ok true → (self.new.root.items ≡ dir.now) × (self.new.fresh ≡ true) × (self.new.pending ≡ []) }
        ensures text { (IsUtf8 dir.now → ⊥) → IsErr result }
    {
        self.asked.add(dir);
        if self.files.is_folder(dir)? {
            self.begin(dir)?;
            Ok(true)
        } else {
            Ok(false)
        }
    }

    fn next_doc(&mut self, alloc: Global, max: usize) -> Result<NextDoc, StoreFault> {
        'steps: for _ in 0..u64::MAX {
            match turn_of(self.step(alloc)?) {
                Turn::On => {}
                Turn::Read(name) => return self.read(alloc, name, max),
                Turn::Answer(next) => return Ok(next),
            }
        }
        Err(self.files.fail().into())
    }
}
