//! The real streams and files: thin adapters, which tell nothing of what they hold.

ghost use Rattle.std.specs.Prelude.{◌≡◌, ◌+◌, ◌≤◌, [], length, IfOk, IfErr, OnOk, OnErr};
ghost use Rattle.flux_outside.specs.Opening.{answer_for};
ghost use Rattle.flux_outside.specs.Causes.{HasStoreCause};
ghost use Rattle.flux_outside.specs.Stores.{FitsIn};
ghost use Rattle.flux_outside.specs.Readers.{IsFileOf, TakesAtMost};

use crate::faults::{Failed, StoreFault, count_failure};
use crate::interrupted::write_on;
use crate::sinks::Sink;
use crate::stores::{File, Store};
use crate::system::{NotOpened, OpenFile, SystemFiles};
use flux_values::Bytes;
use std::alloc::Global;
use std::io::{Read, Stderr, Stdout, Write};
use std::rt::Files;

/// How many bytes are read at once.
const BLOCK: usize = 8192;

/// A stream of std that hands each write to the system before it answers. So no byte that it took can be lost later without
/// a fault, as one that is in a buffer can.
pub trait Unbuffered: Write {}

impl Unbuffered for Stdout {}

impl Unbuffered for Stderr {}

/// A stream of std, as standard output.
pub struct RealSink<W> {
    stream: W,
    faults: u64,
}

impl<W: Drop> Drop for RealSink<W> {
    fn drop(self) {
        let RealSink { stream, faults } = self;
    }
}

impl<W> RealSink<W> {
    pub fn new(stream: W) -> RealSink<W>
        ensures { result ≡ record { stream = stream; faults = 0 } }
    {
        RealSink { stream, faults: 0 }
    }
}

impl<W: Unbuffered> Sink for RealSink<W> {
    ghost use Rattle.std.specs.Prelude.{None};
    ghost use Rattle.std.specs.Io.KnownBytes.{WriteAppends};
    ghost use Rattle.flux_outside.specs.Causes.{HasCause};
    ghost use Rattle.flux_outside.specs.Sinks.{TakesSome};

    ghost seen = { λ sink. record { written = None; faults = sink.faults } };

    fn write(&mut self, bytes: &[u8]) -> Result<usize, Failed>
        ensures bound { TakesSome result bytes.now }
        ensures cause { HasCause self.old.faults self.new.faults result }
        // What std says that its stream has gained is the piece that was taken.
        ensures stream { WriteAppends (W.contents self.old.stream) (W.contents self.new.stream) result bytes.now }
    {
        match write_on(&mut self.stream, bytes) {
            Ok(taken) if taken > 0 || bytes.is_empty() => Ok(taken),
            _ => Err(count_failure(&mut self.faults)),
        }
    }
}

/// The files of the system.
pub struct RealStore<R> {
    files: SystemFiles<R>,
}

impl<R: Drop> Drop for RealStore<R> {
    fn drop(self) {
        let RealStore { files } = self;
    }
}

impl<R> RealStore<R> {
    pub fn new(runtime: R) -> RealStore<R>
        ensures asked { result.files.asked.names ≡ [] }
        ensures faultless { result.files.faults ≡ 0 }
    {
        RealStore {
            files: SystemFiles::new(runtime),
        }
    }
}

impl<R: Files> Store for RealStore<R> {
    ghost use Rattle.std.specs.Prelude.{None, Err};
    ghost use Rattle.std.specs.Str.{IsUtf8};
    ghost use Rattle.flux_outside.specs.Stores.{AskedFor};

    ghost files = { λ _. None };

    ghost asked = { λ store. store.files.asked.names };

    ghost faults = { λ store. store.files.faults };

    fn read_file(&mut self, alloc: Global, name: &[u8], max: usize) -> Result<File, StoreFault>
        ensures asked { AskedFor self.old.files.asked.names self.new.files.asked.names name.now }
        ensures limit { IfOk result (FitsIn max) }
        ensures cause { HasStoreCause self.old.files.faults self.new.files.faults result }
        // A name that is no UTF-8 can't be opened.
        ensures text { (IsUtf8 name.now → ⊥) → result ≡ Err StoreFault.Failed }
    {
        let opened = self.files.open(name);
        read_opened(&mut self.files, alloc, opened, max)
    }
}

/// All of a file that was opened, or the answer for one that wasn't.
pub(crate) fn read_opened<R, F: Read + Drop>(
    files: &mut SystemFiles<R>,
    alloc: Global,
    opened: Result<OpenFile<F>, NotOpened>,
    max: usize,
) -> Result<File, StoreFault>
    ensures limit { IfOk result (FitsIn max) }
    ensures whole { IfOk opened (λ file. IsFileOf (F.remaining file.reader) max result) }
    ensures cause { OnOk opened (HasStoreCause files.old.faults files.new.faults result) }
    ensures refused { IfErr opened (λ reason. result ≡ answer_for reason) }
    ensures unread { OnErr opened (files.new.faults ≡ files.old.faults) }
    ensures asked { files.new.asked ≡ files.old.asked }
{
    match opened {
        Ok(mut file) => read_up_to(files, alloc, &mut file, max),
        Err(NotOpened::Missing) => Ok(File::Missing),
        Err(NotOpened::Memory) => Err(StoreFault::Memory),
        Err(NotOpened::Failed) => Err(StoreFault::Failed),
    }
}

/// All that a file has left, if that is at most `max` bytes. It reads at most one block beyond them.
fn read_up_to<R, F: Read>(
    files: &mut SystemFiles<R>,
    alloc: Global,
    file: &mut OpenFile<F>,
    max: usize,
) -> Result<File, StoreFault>
    ensures limit { IfOk result (FitsIn max) }
    ensures whole { IsFileOf (F.remaining file.old.reader) max result }
    ensures taken { TakesAtMost (max + BLOCK) (F.remaining file.old.reader) (F.remaining file.new.reader) }
    ensures asked { files.new.asked ≡ files.old.asked }
    ensures cause { HasStoreCause files.old.faults files.new.faults result }
{
    let mut body = Bytes::new(alloc);
    let mut buffer = [0u8; BLOCK];
    'reading: loop {
        let taken = files.read(file, &mut buffer)?;
        if taken == 0 {
            return Ok(File::Found(body));
        }
        if taken > max - body.as_bytes().len() {
            return Ok(File::Longer);
        }
        body.append(&buffer[..taken])?;
    }
}
