//! A door in memory whose first link tells when it is written to.

use flux_doors::{Door, Framing, Link, MemoryDoor, MemoryLink};
use flux_outside::Failed;
use std::sync::atomic::{AtomicU64, Ordering};

/// A link that may have a word, which it raises when it is written to.
#[derive(Drop)]
pub struct TellingLink<'a> {
    link: MemoryLink,
    word: Option<&'a AtomicU64>,
}

impl Link for TellingLink<'_> {
    ghost use Rattle.flux_doors.specs.Memory.{link_seen};

    ghost seen = { λ telling. link_seen telling.link };

    fn read(&mut self, buffer: &mut [u8]) -> Result<usize, Failed> {
        self.link.read(buffer)
    }

    fn write(&mut self, bytes: &[u8]) -> Result<usize, Failed> {
        let answer = self.link.write(bytes);
        if let Some(word) = self.word {
            word.store(1, Ordering::SeqCst);
        }
        answer
    }
}

/// A door that gives its word to its first link.
#[derive(Drop)]
pub struct TellingDoor<'a> {
    pub door: MemoryDoor,
    pub word: Option<&'a AtomicU64>,
}

impl<'a> Door for TellingDoor<'a> {
    ghost use Rattle.std.specs.Prelude.{None};
    ghost use Rattle.flux_doors.specs.Memory.{door_seen, door_out};

    type Link = TellingLink<'a>;

    ghost seen = { λ telling. record {
      to_come = None;
      taken_back = None;
      open_at = (door_seen telling.door).open_at;
      faults = (door_seen telling.door).faults;
      late = (door_seen telling.door).late;
    } };

    ghost out = { λ telling. door_out telling.door };

    fn expect(&mut self, framing: Framing) {
        self.door.expect(framing)
    }

    fn open(&mut self, port: u16) -> Result<(), Failed> {
        self.door.open(port)
    }

    fn accept(&mut self, first: bool) -> Result<Option<TellingLink<'a>>, Failed> {
        match self.door.accept(first) {
            Ok(Some(link)) => Ok(Some(TellingLink {
                link,
                word: self.word.take(),
            })),
            Ok(None) => Ok(None),
            Err(failed) => Err(failed),
        }
    }

    fn done(&mut self, link: TellingLink<'a>) {
        self.door.done(link.link)
    }
}
