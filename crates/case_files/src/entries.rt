//! What the lines of a case file say.

use crate::bodies::Documents;
use flux_outside::FileBytes;
use flux_values::{Bytes, List};

/// The stream that is printed on, the one for lines about what went wrong, or that of a link.
#[derive(Clone, Copy, PartialEq, Eq)]
pub enum Stream {
    Out,
    Err,
    Link,
}

/// What has calls that may fail.
#[derive(Clone, Copy, PartialEq, Eq)]
pub enum Part {
    Store,
    Folder,
    Stream(Stream),
    Door,
    /// The reads of a link.
    Reads,
}

/// How much of a text a stream has to gain.
#[derive(Clone, Copy)]
pub enum Measure {
    All,
    Front,
    /// Of any text: the journal of some run. A run's journal is audited.
    SomeJournal,
    /// It may gain anything.
    Any,
}

/// What a stream has to gain.
#[derive(Drop)]
pub struct Gain {
    pub measure: Measure,
    pub text: Bytes,
}

impl Gain {
    pub fn is_met(&self, got: &[u8]) -> bool {
        let text = self.text.as_bytes();
        match self.measure {
            Measure::All => got == text,
            Measure::Front => text.starts_with(got),
            Measure::SomeJournal => !got.is_empty(),
            Measure::Any => true,
        }
    }
}

#[derive(Drop)]
pub enum Entry {
    /// What follows up to the first case holds for each case up to the next such line.
    Shared,
    /// A case begins, by its name.
    Case(String),
    /// A text by its name.
    Text(FileBytes),
    /// The line is none of a case file.
    Faulty,
    Words(List<Bytes>),
    File(FileBytes),
    Folder(Bytes),
    Documents(Documents),
    Fail(Part, List<u64>),
    Room(Stream, usize),
    Piece(Stream, usize),
    Gain(Stream, Gain),
    Status(usize),
    /// How many calls of nodes the gate sees.
    Calls(usize),
    /// How often the gate looks, at most, for a call of another flow while it holds the first call.
    Hold(usize),
    /// The files that are asked for, in order.
    Asked(List<Bytes>),
    /// The folders that are asked for, in order.
    Opened(List<Bytes>),
    /// The next links are ready at the door together.
    Batch,
    /// So many links, each of which gives this.
    Links(usize, Bytes),
}

/// An entry, and the number of the line that it begins with.
#[derive(Drop)]
pub struct Line {
    pub number: usize,
    pub entry: Entry,
}

impl Entry {
    pub fn is_shared(&self) -> bool {
        matches!(self, Entry::Shared)
    }

    pub fn is_case(&self) -> bool {
        matches!(self, Entry::Case(_))
    }

    /// Whether lines about links begin here.
    pub fn begins_links(&self) -> bool {
        matches!(self, Entry::Batch | Entry::Links(_, _))
    }

    pub fn is_gain(&self, of: Stream) -> bool {
        matches!(self, Entry::Gain(stream, _) if *stream == of)
    }
}
