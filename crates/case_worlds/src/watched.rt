//! A store and a folder in memory that keep the names that they are asked for.

use flux_outside::{Failed, File, Folder, MemoryFolder, MemoryStore, NextDoc, Store, StoreFault};
use flux_values::{Bytes, List};
use std::alloc::Global;

/// Names in the order in which they were asked for.
#[derive(Drop)]
pub struct Names {
    alloc: Global,
    names: List<Bytes>,
    /// Whether there was no memory for one.
    lost: bool,
}

impl Names {
    pub fn new(alloc: Global) -> Names {
        Names {
            alloc,
            names: List::new(alloc),
            lost: false,
        }
    }

    fn add(&mut self, name: &[u8]) {
        let added = match Bytes::copy(self.alloc, name) {
            Ok(name) => self.names.add(name),
            Err(memory) => Err(memory),
        };
        if added.is_err() {
            self.lost = true;
        }
    }

    /// The names, where there was memory for each.
    pub fn all(&self) -> Option<&[Bytes]> {
        if self.lost {
            None
        } else {
            Some(self.names.as_slice())
        }
    }
}

#[derive(Drop)]
pub struct WatchedStore {
    pub store: MemoryStore,
    pub names: Names,
}

impl Store for WatchedStore {
    ghost use Rattle.std.specs.Prelude.{Some};
    ghost use Rattle.flux_outside.specs.InMemory.{store_files, store_asked, store_faults};

    ghost files = { λ watched. Some (store_files watched.store) };

    ghost asked = { λ watched. store_asked watched.store };

    ghost faults = { λ watched. store_faults watched.store };

    fn read_file(&mut self, alloc: Global, name: &[u8], max: usize) -> Result<File, StoreFault> {
        self.names.add(name);
        self.store.read_file(alloc, name, max)
    }
}

#[derive(Drop)]
pub struct WatchedFolder {
    pub folder: MemoryFolder,
    pub names: Names,
}

impl Folder for WatchedFolder {
    ghost use Rattle.std.specs.Prelude.{Some};
    ghost use Rattle.flux_outside.specs.MemoryFolders.{folder_docs, folder_left, folder_asked, folder_faults};

    ghost folders = { λ watched. Some (folder_docs watched.folder) };

    ghost left = { λ watched. Some (folder_left watched.folder) };

    ghost asked = { λ watched. folder_asked watched.folder };

    ghost faults = { λ watched. folder_faults watched.folder };

    fn open(&mut self, dir: &[u8]) -> Result<bool, Failed> {
        self.names.add(dir);
        self.folder.open(dir)
    }

    fn next_doc(&mut self, alloc: Global, max: usize) -> Result<NextDoc, StoreFault> {
        self.folder.next_doc(alloc, max)
    }
}
