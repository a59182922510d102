//! A sink and a store in memory, whose calls fail where a test wants them to.

ghost use Rattle.std.specs.Prelude.{◌≡◌, ◌≤◌, ◌<◌, ◌↔◌, [], length, vec_len, vec_capacity, IfOk, IfSome, Some, option_copied};

use crate::asked::AskedNames;
use crate::calls::Calls;
use crate::faults::{Failed, StoreFault, count_failure};
use crate::sinks::Sink;
use crate::stores::{File, Store};
use flux_values::{Bytes, List, Memory};
use std::alloc::Global;

/// One file: its name and its bytes.
#[derive(Drop)]
pub struct FileBytes {
    pub name: Bytes,
    pub body: Bytes,
}

/// A sink in memory with a fixed room.
pub struct MemorySink {
    written: Vec<u8>,
    room: usize,
    piece: usize,
    calls: Calls,
    faults: u64,
    ghost reserved: { room ≤ vec_capacity written },
    ghost within: { vec_len written ≤ room },
    ghost some: { 0 < piece },
}

impl Drop for MemorySink {
    fn drop(self) {
        let MemorySink {
            written,
            room,
            piece,
            calls,
            faults,
        } = self;
    }
}

impl MemorySink {
    ghost use Rattle.flux_outside.specs.InMemory.{sink_bytes, sink_seen, IsNewSink};

    /// A sink that takes at most `piece` bytes a call and `room` bytes in all, for which it reserves memory.
    /// The calls whose numbers are in `fails`, counted from 1, fail; so does a call that would pass the room.
    pub fn new(
        alloc: Global,
        room: usize,
        piece: usize,
        fails: List<u64>,
    ) -> Result<MemorySink, Memory>
        requires { 0 < piece }
        ensures empty { IfOk result (λ sink. sink_seen sink ≡ record { written = Some []; faults = 0 }) }
        ensures made { IfOk result (λ sink. IsNewSink sink room piece fails) }
    {
        let written = Vec::with_capacity(alloc, room)?;
        Ok(MemorySink {
            written,
            room,
            piece,
            calls: Calls::new(fails),
            faults: 0,
        })
    }

    /// All bytes written.
    pub fn written(&self) -> &[u8]
        ensures { result.now ≡ sink_bytes self.now }
    {
        self.written.as_slice()
    }
}

impl Sink for MemorySink {
    ghost use Rattle.std.specs.Prelude.{Some, IfOk, IsOk, length};
    ghost use Rattle.flux_outside.specs.Causes.{HasCause};
    ghost use Rattle.flux_outside.specs.Sinks.{TakesSome, taken};
    ghost use Rattle.flux_outside.specs.Streams.{Gains};
    ghost use Rattle.flux_outside.specs.InMemory.{sink_seen, piece_of, SinkTakes, SinkWasCalled};

    ghost seen = { sink_seen };

    fn write(&mut self, bytes: &[u8]) -> Result<usize, Failed>
        ensures bound { TakesSome result bytes.now }
        ensures bytes { Gains (sink_seen self.old) (sink_seen self.new) (taken result bytes.now) }
        ensures cause { HasCause (sink_seen self.old).faults (sink_seen self.new).faults result }
        // It takes as many bytes as a piece has, unless the call is to fail or the room is too small.
        ensures piece { IfOk result (λ taken. taken ≡ piece_of self.old (length bytes.now)) }
        ensures takes { IsOk result ↔ SinkTakes self.old (length bytes.now) }
        ensures called { SinkWasCalled self.old self.new }
    {
        let refused = self.calls.count();
        let taken = bytes.len().min(self.piece);
        if refused || taken > self.room - self.written.len() {
            return Err(count_failure(&mut self.faults));
        }
        match self.written.extend_from_slice(&bytes[..taken]) {
            Ok(()) => Ok(taken),
            Err(_) => Err(count_failure(&mut self.faults)),
        }
    }
}

/// A store in memory. Of two files of one name the first counts.
pub struct MemoryStore {
    files: List<FileBytes>,
    calls: Calls,
    asked: AskedNames,
    faults: u64,
}

impl Drop for MemoryStore {
    fn drop(self) {
        let MemoryStore {
            files,
            calls,
            asked,
            faults,
        } = self;
    }
}

impl MemoryStore {
    ghost use Rattle.flux_outside.specs.Stores.{file_of};
    ghost use Rattle.flux_outside.specs.Memory.{first_of};
    ghost use Rattle.flux_outside.specs.InMemory.{store_files, store_asked, store_faults, IsNewStore};

    /// A store of these files. The calls whose numbers are in `fails`, counted from 1, fail.
    pub fn new(files: List<FileBytes>, fails: List<u64>) -> MemoryStore
        ensures files { store_files result ≡ first_of files }
        ensures faultless { store_faults result ≡ 0 }
        ensures asked { store_asked result ≡ [] }
        ensures made { IsNewStore result fails }
    {
        MemoryStore {
            files,
            calls: Calls::new(fails),
            asked: AskedNames::new(),
            faults: 0,
        }
    }

    /// The body of the first file of a name.
    fn body_of<'a>(files: &'a [FileBytes], name: &[u8]) -> Option<&'a [u8]>
        ensures { option_copied result ≡ first_of files.now name.now }
    {
        for file in files {
            if file.name.as_bytes() == name {
                return Some(file.body.as_bytes());
            }
        }
        None
    }

    /// What is under a name.
    fn find(&self, alloc: Global, name: &[u8], max: usize) -> Result<File, Memory>
        ensures { IfOk result (λ file. file ≡ file_of (store_files self.now name.now) max) }
    {
        Ok(match MemoryStore::body_of(self.files.as_slice(), name) {
            None => File::Missing,
            Some(body) if body.len() > max => File::Longer,
            Some(body) => File::Found(Bytes::copy(alloc, body)?),
        })
    }
}

impl Store for MemoryStore {
    ghost use Rattle.std.specs.Prelude.{Some, IfOk, IsErrOf};
    ghost use Rattle.flux_outside.specs.Causes.{HasStoreCause};
    ghost use Rattle.flux_outside.specs.Stores.{FitsIn, file_of, AskedFor};
    ghost use Rattle.flux_outside.specs.InMemory.{store_files, store_asked, store_faults, StoreIsToFail, StoreWasCalled};

    ghost files = { λ store. Some (store_files store) };

    ghost asked = { λ store. store_asked store };

    ghost faults = { λ store. store_faults store };

    fn read_file(&mut self, alloc: Global, name: &[u8], max: usize) -> Result<File, StoreFault>
        ensures kept { Some (store_files self.new) ≡ Some (store_files self.old) }
        ensures asked { AskedFor (store_asked self.old) (store_asked self.new) name.now }
        ensures limit { IfOk result (FitsIn max) }
        ensures told { IfSome (Some (store_files self.old)) (λ files. IfOk result (λ file. file ≡ file_of (files name.now) max)) }
        ensures cause { HasStoreCause (store_faults self.old) (store_faults self.new) result }
        // The calls that are to fail do, and no other.
        ensures fails { StoreIsToFail self.old → IsErrOf result StoreFault.Failed }
        ensures only { IsErrOf result StoreFault.Failed → StoreIsToFail self.old }
        ensures called { StoreWasCalled self.old self.new }
    {
        self.asked.add(name);
        if self.calls.count() {
            return Err(count_failure(&mut self.faults).into());
        }
        match self.find(alloc, name, max) {
            Ok(file) => Ok(file),
            Err(Memory) => Err(StoreFault::Memory),
        }
    }
}
