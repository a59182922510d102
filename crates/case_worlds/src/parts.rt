//! The parts of the world in memory that a case speaks of.

ghost use Rattle.std.specs.Prelude.{◌≡◌, IfOk};
ghost use Rattle.flux_doors.specs.Memory.{door_out};

use crate::clients::entrance_of;
use crate::watched::{Names, WatchedFolder, WatchedStore};
use case_files::{Case, Entry, Line, Part, Shape, Stream};
use flux_doors::{MemoryDoor, MemoryLink};
use flux_outside::{FileBytes, MemoryFolder, MemorySink, MemoryStore};
use flux_values::{Bytes, List, Memory};
use std::alloc::Global;

/// How many bytes a stream has room for, and takes a call, where a case says nothing of it.
const ROOM: usize = 16_777_216;

/// The links that a door gives, by their batches, and which of its calls fail.
#[derive(Drop)]
pub struct Entrance {
    pub batches: List<List<MemoryLink>>,
    pub fails: List<u64>,
}

impl Entrance {
    /// The door that gives these links. None is out yet.
    pub fn open(self, alloc: Global) -> Result<MemoryDoor, Memory>
        ensures { IfOk result (λ door. door_out door ≡ 0) }
    {
        MemoryDoor::new(alloc, self.batches, self.fails)
    }
}

/// A store and a folder, which are watched, two streams, and what a door is made of, or the door itself.
#[derive(Drop)]
pub struct Parts<D> {
    pub store: WatchedStore,
    pub folder: WatchedFolder,
    pub out: MemorySink,
    pub err: MemorySink,
    pub door: D,
}

/// The parts of the world that a case's command line meets.
pub fn parts_of(alloc: Global, case: &Case) -> Result<Parts<Entrance>, Memory> {
    let (store, folder) = places_of(alloc, case)?;
    let (out, err) = streams_of(alloc, case)?;
    let door = entrance_of(alloc, case)?;
    Ok(Parts {
        store,
        folder,
        out,
        err,
        door,
    })
}

/// The store and the folder of a case.
fn places_of(alloc: Global, case: &Case) -> Result<(WatchedStore, WatchedFolder), Memory> {
    let store = store_of(alloc, case)?;
    let folder = folder_of(alloc, case)?;
    Ok((store, folder))
}

/// The output and the error stream of a case.
fn streams_of(alloc: Global, case: &Case) -> Result<(MemorySink, MemorySink), Memory> {
    let out = out_of(alloc, case)?;
    let err = err_of(alloc, case)?;
    Ok((out, err))
}

/// A file of this name and these bytes.
pub fn file_of(alloc: Global, name: &[u8], body: &[u8]) -> Result<FileBytes, Memory> {
    let name = Bytes::copy(alloc, name)?;
    let body = Bytes::copy(alloc, body)?;
    Ok(FileBytes { name, body })
}

/// Adds the files of lines.
fn add_files(alloc: Global, files: &mut List<FileBytes>, lines: &[Line]) -> Result<(), Memory> {
    for line in lines {
        if let Entry::File(file) = &line.entry {
            files.add(file_of(alloc, file.name.as_bytes(), file.body.as_bytes())?)?;
        }
    }
    Ok(())
}

/// The files that are there.
pub fn files_of(alloc: Global, case: &Case) -> Result<List<FileBytes>, Memory> {
    let mut files = List::new(alloc);
    add_files(alloc, &mut files, case.own)?;
    add_files(alloc, &mut files, case.shared)?;
    Ok(files)
}

/// The store of these files, which keeps the names that it is asked for, and of which these calls fail.
pub fn store_with(alloc: Global, files: List<FileBytes>, fails: List<u64>) -> WatchedStore {
    WatchedStore {
        store: MemoryStore::new(files, fails),
        names: Names::new(alloc),
    }
}

/// The store of a case.
fn store_of(alloc: Global, case: &Case) -> Result<WatchedStore, Memory> {
    let fails = case.fails(alloc, Part::Store)?;
    Ok(store_with(alloc, files_of(alloc, case)?, fails))
}

/// Adds the documents of lines.
fn add_documents(alloc: Global, docs: &mut List<FileBytes>, lines: &[Line]) -> Result<(), Memory> {
    for line in lines {
        if let Entry::Documents(documents) = &line.entry {
            documents.add_to(alloc, docs)?;
        }
    }
    Ok(())
}

/// The documents of the folder.
fn documents_of(alloc: Global, case: &Case) -> Result<List<FileBytes>, Memory> {
    let mut docs = List::new(alloc);
    add_documents(alloc, &mut docs, case.own)?;
    add_documents(alloc, &mut docs, case.shared)?;
    Ok(docs)
}

/// The folder that is there, of which these calls fail.
pub fn folder_with(alloc: Global, case: &Case, fails: List<u64>) -> Result<WatchedFolder, Memory> {
    let docs = documents_of(alloc, case)?;
    // A folder without a name is asked for by no words.
    let dir = Bytes::copy(alloc, case.folder.unwrap_or(b""))?;
    Ok(WatchedFolder {
        folder: MemoryFolder::new(dir, docs, fails),
        names: Names::new(alloc),
    })
}

/// The folder of a case.
fn folder_of(alloc: Global, case: &Case) -> Result<WatchedFolder, Memory> {
    folder_with(alloc, case, case.fails(alloc, Part::Folder)?)
}

fn sink(alloc: Global, shape: Shape, fails: List<u64>) -> Result<MemorySink, Memory> {
    let room = shape.room.unwrap_or(ROOM);
    let piece = shape.piece.unwrap_or(ROOM).max(1);
    MemorySink::new(alloc, room, piece, fails)
}

/// The output of a case.
fn out_of(alloc: Global, case: &Case) -> Result<MemorySink, Memory> {
    sink(
        alloc,
        case.out,
        case.fails(alloc, Part::Stream(Stream::Out))?,
    )
}

/// The error stream of a case.
fn err_of(alloc: Global, case: &Case) -> Result<MemorySink, Memory> {
    sink(
        alloc,
        case.err,
        case.fails(alloc, Part::Stream(Stream::Err))?,
    )
}
