//! A system of files and folders, and a stream that fails once.

ghost use Rattle.std.specs.Prelude.{◌<◌, IsErr};

use flux_outside::Unbuffered;
use std::alloc::Allocator;
use std::fs::{Metadata, OpenFile, OpenOptions};
use std::io;
use std::io::{ErrorKind, Read, Seek, SeekFrom, Write};
use std::rt::Files;

/// A file of the made-up system: what it has, and how its first read fails.
#[derive(Drop)]
pub struct Reading {
    body: &'static [u8],
    first: Option<ErrorKind>,
}

fn refused<T>() -> io::Result<T>
    ensures { IsErr result }
{
    Err(io::Error::from(ErrorKind::Unsupported))
}

impl Read for Reading {
    fn read(&mut self, buffer: &mut [u8]) -> io::Result<usize> {
        if let Some(kind) = self.first.take() {
            return Err(io::Error::from(kind));
        }
        let count = self.body.len().min(buffer.len());
        buffer[..count].copy_from_slice(&self.body[..count]);
        self.body = &self.body[count..];
        Ok(count)
    }
}

impl Write for Reading {
    fn write(&mut self, _bytes: &[u8]) -> io::Result<usize> {
        refused()
    }

    fn flush(&mut self) -> io::Result<()> {
        refused()
    }
}

impl Seek for Reading {
    fn seek(&mut self, _to: SeekFrom) -> io::Result<u64> {
        refused()
    }
}

impl OpenFile for Reading {
    fn metadata(&self) -> io::Result<Metadata> {
        refused()
    }

    fn set_len(&self, _size: u64) -> io::Result<()> {
        refused()
    }

    fn sync_all(&self) -> io::Result<()> {
        refused()
    }

    fn sync_data(&self) -> io::Result<()> {
        refused()
    }
}

/// What is at a path of the made-up system.
#[derive(Clone, Copy)]
pub enum Entry {
    /// A file, with what it has.
    File(&'static [u8]),
    /// A folder, with the names in it, each ended by a NUL.
    Folder(&'static [u8]),
    /// A folder of so many empty subfolders, whose names are numbers of four digits.
    Many(u32),
    /// A link, with what one reads who follows it.
    Link(&'static [u8]),
    /// A file that goes away before it is opened.
    Gone,
}

/// The names in an open folder.
#[derive(Drop)]
pub enum Names {
    Listed(Reading),
    /// Numbers from one on up to another.
    Numbered(u32, u32),
}

/// A system with these entries by their paths; what it answers for every other name, and how the first read of a file fails.
#[derive(Clone, Copy)]
pub struct System {
    pub entries: &'static [(&'static str, Entry)],
    pub other: ErrorKind,
    pub first: Option<ErrorKind>,
}

/// A digit of a number of four, by what it counts.
fn digit(number: u32, each: u32) -> u8
    requires { 0 < each }
{
    b'0' + (number / each % 10) as u8
}

/// A number of four digits as a name, with its NUL.
fn name_of(number: u32) -> [u8; 5] {
    [
        digit(number, 1000),
        digit(number, 100),
        digit(number, 10),
        digit(number, 1),
        0,
    ]
}

impl Read for Names {
    fn read(&mut self, buffer: &mut [u8]) -> io::Result<usize> {
        match self {
            Names::Listed(names) => names.read(buffer),
            Names::Numbered(next, end) if *next < *end => {
                let name = name_of(*next);
                let count = name.len().min(buffer.len());
                buffer[..count].copy_from_slice(&name[..count]);
                *next += 1;
                Ok(count)
            }
            Names::Numbered(_, _) => Ok(0),
        }
    }
}

impl System {
    /// What is at a path, with or without a slash at its end.
    fn entry(&self, path: &str) -> io::Result<Entry> {
        let path = path.strip_suffix('/').unwrap_or(path);
        for (name, entry) in self.entries {
            if *name == path {
                return Ok(*entry);
            }
            if let Entry::Many(_) = entry
                && path.starts_with(*name)
            {
                return Ok(Entry::Folder(b""));
            }
        }
        Err(io::Error::from(self.other))
    }

    fn reading(&self, body: &'static [u8]) -> Reading {
        Reading {
            body,
            first: self.first,
        }
    }
}

impl Files for System {
    type File = Reading;

    type Dir = Names;

    fn open_file(&self, _how: &OpenOptions, path: &str) -> io::Result<Reading> {
        match self.entry(path)? {
            Entry::File(body) | Entry::Link(body) => Ok(self.reading(body)),
            Entry::Gone => Err(io::Error::from(ErrorKind::NotFound)),
            Entry::Folder(_) | Entry::Many(_) => refused(),
        }
    }

    fn open_dir(&self, path: &str) -> io::Result<Names> {
        match self.entry(path)? {
            Entry::Folder(names) => Ok(Names::Listed(self.reading(names))),
            Entry::Many(count) => Ok(Names::Numbered(0, count)),
            _ => refused(),
        }
    }

    fn metadata(&self, path: &str) -> io::Result<Metadata> {
        match self.entry(path)? {
            Entry::Folder(_) | Entry::Many(_) => Ok(Metadata::of_dir()),
            _ => Ok(Metadata::of_file(0)),
        }
    }

    fn symlink_metadata(&self, path: &str) -> io::Result<Metadata> {
        match self.entry(path)? {
            Entry::Link(_) => Ok(Metadata::of_symlink(0)),
            _ => self.metadata(path),
        }
    }

    fn copy(&self, _from: &str, _to: &str) -> io::Result<u64> {
        refused()
    }

    fn rename(&self, _from: &str, _to: &str) -> io::Result<()> {
        refused()
    }

    fn remove_file(&self, _path: &str) -> io::Result<()> {
        refused()
    }

    fn create_dir(&self, _path: &str) -> io::Result<()> {
        refused()
    }

    fn remove_dir(&self, _path: &str) -> io::Result<()> {
        refused()
    }

    fn remove_dir_all<B: Allocator>(&self, _alloc: B, _path: &str) -> io::Result<()> {
        refused()
    }
}

/// A stream whose first write fails; each later one takes all.
#[derive(Drop)]
pub struct FailsOnce {
    pub first: Option<ErrorKind>,
}

impl Write for FailsOnce {
    fn write(&mut self, bytes: &[u8]) -> io::Result<usize> {
        match self.first.take() {
            Some(kind) => Err(io::Error::from(kind)),
            None => Ok(bytes.len()),
        }
    }

    fn flush(&mut self) -> io::Result<()> {
        Ok(())
    }
}

impl Unbuffered for FailsOnce {}
