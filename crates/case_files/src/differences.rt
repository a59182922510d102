//! What came of a command line, beside what a case wants.

use crate::entries::{Entry, Line, Stream};
use flux_spelling::{append_number, append_text};
use flux_values::{Bytes, List, Memory};
use std::alloc::Global;

/// How many bytes of a text are shown.
const SHOWN: usize = 160;

/// A line for each thing that differs.
#[derive(Drop)]
pub struct Differences {
    alloc: Global,
    lines: List<Bytes>,
}

impl Differences {
    pub fn new(alloc: Global) -> Differences {
        Differences {
            alloc,
            lines: List::new(alloc),
        }
    }

    pub fn lines(&self) -> &[Bytes] {
        self.lines.as_slice()
    }

    /// Adds a line as it is.
    pub fn tell(&mut self, line: &[u8]) -> Result<(), Memory> {
        self.lines.add(Bytes::copy(self.alloc, line)?)
    }

    pub fn compare_status(&mut self, got: u8, want: usize) -> Result<(), Memory> {
        if usize::from(got) == want {
            return Ok(());
        }
        let mut line = Bytes::copy(self.alloc, b"status ")?;
        append_number(self.alloc, &mut line, u64::from(got))?;
        line.append(b" in place of ")?;
        append_number(self.alloc, &mut line, want as u64)?;
        self.lines.add(line)
    }

    /// Compares what a stream gained with the lines that say what it has to gain. One of them has to be met;
    /// where there is none, it has to gain nothing.
    pub fn compare_gain(
        &mut self,
        name: &[u8],
        of: Stream,
        got: &[u8],
        lines: &[Line],
    ) -> Result<(), Memory> {
        let mut first = None;
        for line in lines {
            match &line.entry {
                Entry::Gain(stream, gain) if *stream == of => {
                    if gain.is_met(got) {
                        return Ok(());
                    }
                    first = first.or(Some(gain.text.as_bytes()));
                }
                _ => {}
            }
        }
        if first.is_none() && got.is_empty() {
            return Ok(());
        }
        let mut line = Bytes::copy(self.alloc, name)?;
        append_parting(self.alloc, &mut line, got, first.unwrap_or(b""))?;
        self.lines.add(line)
    }

    /// The same of a link, by its place among all.
    pub fn compare_link(
        &mut self,
        place: usize,
        written: &[u8],
        lines: &[Line],
    ) -> Result<(), Memory> {
        let mut name = Bytes::copy(self.alloc, b"link ")?;
        append_number(self.alloc, &mut name, place as u64)?;
        self.compare_gain(name.as_bytes(), Stream::Link, written, lines)
    }

    /// Compares the number of calls that a gate saw with those that were printed.
    pub fn compare_calls(&mut self, told: Option<u64>, printed: u64) -> Result<(), Memory> {
        if told == Some(printed) {
            return Ok(());
        }
        let mut line = Bytes::copy(self.alloc, b"gate told of ")?;
        match told {
            Some(calls) => append_number(self.alloc, &mut line, calls)?,
            None => line.append(b"calls mixed up")?,
        }
        line.append(b" in place of ")?;
        append_number(self.alloc, &mut line, printed)?;
        self.lines.add(line)
    }

    /// Compares names that were asked for, where a case tells which.
    pub fn compare_names(
        &mut self,
        what: &[u8],
        got: Option<&[Bytes]>,
        want: Option<&[Bytes]>,
    ) -> Result<(), Memory> {
        let got = got.ok_or(Memory)?;
        let Some(want) = want else {
            return Ok(());
        };
        if got == want {
            return Ok(());
        }
        let mut line = Bytes::copy(self.alloc, what)?;
        append_names(&mut line, got)?;
        line.append(b" in place of")?;
        append_names(&mut line, want)?;
        self.lines.add(line)
    }
}

fn append_names(line: &mut Bytes, names: &[Bytes]) -> Result<(), Memory> {
    for name in names {
        line.append(b" ")?;
        append_text(line, name.as_bytes())?;
    }
    Ok(())
}

/// Adds where two texts part, and how each goes on from there.
fn append_parting(alloc: Global, line: &mut Bytes, got: &[u8], want: &[u8]) -> Result<(), Memory> {
    let place = parting(got, want);
    line.append(b" from byte ")?;
    append_number(alloc, line, place as u64)?;
    line.append(b" on: ")?;
    append_text(line, shown(got, place))?;
    line.append(b" in place of ")?;
    append_text(line, shown(want, place))
}

/// The first place where two texts differ, or where the shorter one ends.
fn parting(first: &[u8], second: &[u8]) -> usize {
    let differs = first
        .iter()
        .zip(second)
        .position(|(one, other)| one != other);
    differs.unwrap_or(first.len().min(second.len()))
}

/// What a text has from a place on, as far as it is shown.
fn shown(text: &[u8], place: usize) -> &[u8] {
    let behind = text.get(place..).unwrap_or(b"");
    behind.get(..SHOWN).unwrap_or(behind)
}
