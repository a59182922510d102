//! What the lines of one case say.

use crate::entries::{Entry, Line, Part, Stream};
use flux_values::{Bytes, List, Memory};
use std::alloc::Global;

/// How much a stream takes, where a case says so.
#[derive(Clone, Copy)]
pub struct Shape {
    pub room: Option<usize>,
    /// The most bytes that it takes a call.
    pub piece: Option<usize>,
}

/// Keeps what is said, where nothing was said before.
fn keep<T: Copy>(place: &mut Option<T>, said: T) {
    if place.is_none() {
        *place = Some(said);
    }
}

/// The lines of a case, its own before those that it shares, and what they say. Of two that say the same the first counts.
#[derive(Clone, Copy)]
pub struct Case<'a> {
    pub own: &'a [Line],
    pub shared: &'a [Line],
    pub words: Option<&'a [Bytes]>,
    /// The status that is wanted.
    pub status: Option<usize>,
    /// The files that have to be asked for.
    pub asked: Option<&'a [Bytes]>,
    /// The folders that have to be asked for.
    pub opened: Option<&'a [Bytes]>,
    /// The name of the folder that is there.
    pub folder: Option<&'a [u8]>,
    /// How many calls of nodes the gate has to see.
    pub calls: Option<usize>,
    /// How often the gate looks, at most, for a call of another flow while it holds the first call. One has to come.
    pub hold: Option<usize>,
    pub out: Shape,
    pub err: Shape,
}

impl<'a> Case<'a> {
    pub fn of(own: &'a [Line], shared: &'a [Line]) -> Case<'a> {
        let shape = Shape {
            room: None,
            piece: None,
        };
        let mut case = Case {
            own,
            shared,
            words: None,
            status: None,
            asked: None,
            opened: None,
            folder: None,
            calls: None,
            hold: None,
            out: shape,
            err: shape,
        };
        case.take_all(own);
        case.take_all(shared);
        case
    }

    fn take_all(&mut self, lines: &'a [Line]) {
        for line in lines {
            self.take(&line.entry);
        }
    }

    /// Takes what an entry says, where nothing said the same before.
    fn take(&mut self, entry: &'a Entry) {
        match entry {
            Entry::Words(words) => keep(&mut self.words, words.as_slice()),
            Entry::Status(status) => keep(&mut self.status, *status),
            Entry::Asked(names) => keep(&mut self.asked, names.as_slice()),
            Entry::Opened(names) => keep(&mut self.opened, names.as_slice()),
            Entry::Folder(dir) => keep(&mut self.folder, dir.as_bytes()),
            Entry::Calls(calls) => keep(&mut self.calls, *calls),
            Entry::Hold(looks) => keep(&mut self.hold, *looks),
            Entry::Room(Stream::Out, bytes) => keep(&mut self.out.room, *bytes),
            Entry::Room(Stream::Err, bytes) => keep(&mut self.err.room, *bytes),
            Entry::Piece(Stream::Out, bytes) => keep(&mut self.out.piece, *bytes),
            Entry::Piece(Stream::Err, bytes) => keep(&mut self.err.piece, *bytes),
            _ => {}
        }
    }

    /// The lines that say what a stream has to gain: its own, if there are any.
    pub fn gains(&self, of: Stream) -> &'a [Line] {
        for line in self.own {
            if line.entry.is_gain(of) {
                return self.own;
            }
        }
        self.shared
    }

    /// The numbers of the calls that are to fail.
    pub fn fails(&self, alloc: Global, of: Part) -> Result<List<u64>, Memory> {
        let mut fails = List::new(alloc);
        add_fails(&mut fails, self.own, of)?;
        add_fails(&mut fails, self.shared, of)?;
        Ok(fails)
    }

    /// The lines about batches and links: its own, if it has any.
    pub fn door_lines(&self) -> &'a [Line] {
        for line in self.own {
            if line.entry.begins_links() {
                return self.own;
            }
        }
        self.shared
    }

    /// How much a link gives and takes, by the lines about it, or else by those about all links.
    pub fn link_shape(&self, lines: &[Line]) -> Shape {
        let all = shape_in(
            lines,
            Shape {
                room: None,
                piece: None,
            },
        );
        shape_in(about_all(self.shared), shape_in(about_all(self.own), all))
    }

    /// The numbers of a link's calls that are to fail, by the lines about it and those about all links.
    pub fn link_fails(&self, alloc: Global, lines: &[Line], of: Part) -> Result<List<u64>, Memory> {
        let mut fails = List::new(alloc);
        add_fails(&mut fails, lines, of)?;
        add_fails(&mut fails, about_all(self.own), of)?;
        add_fails(&mut fails, about_all(self.shared), of)?;
        Ok(fails)
    }
}

/// Adds the numbers of the calls that are to fail.
fn add_fails(fails: &mut List<u64>, lines: &[Line], of: Part) -> Result<(), Memory> {
    for line in lines {
        match &line.entry {
            Entry::Fail(part, calls) if *part == of => {
                for call in calls {
                    fails.add(*call)?;
                }
            }
            _ => {}
        }
    }
    Ok(())
}

/// The lines before those about links.
fn about_all(lines: &[Line]) -> &[Line] {
    let first = lines.iter().position(|line| line.entry.begins_links());
    &lines[..first.unwrap_or(lines.len())]
}

/// What lines say of links, where nothing said the same before.
fn shape_in(lines: &[Line], before: Shape) -> Shape {
    let mut shape = before;
    for line in lines {
        match &line.entry {
            Entry::Room(Stream::Link, bytes) => keep(&mut shape.room, *bytes),
            Entry::Piece(Stream::Link, bytes) => keep(&mut shape.piece, *bytes),
            _ => {}
        }
    }
    shape
}
