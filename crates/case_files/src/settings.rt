//! One line of a case, read by its first word.

use crate::bodies::{begun, named, read_document, read_documents};
use crate::entries::{Entry, Gain, Line, Measure, Part, Stream};
use crate::keys::{Key, key_of};
use crate::spellings::{calls_of, number_of, word_of, words_of};
use flux_values::Bytes;
use std::alloc::Global;
use trial_ends::Trouble;

/// What a line says that isn't a piece. The lines are those before it.
pub fn read_entry(alloc: Global, line: &str, lines: &[Line]) -> Result<Entry, Trouble> {
    let (word, rest) = line.split_once(' ').unwrap_or((line, ""));
    let rest = rest.trim_start();
    match key_of(word)? {
        Key::Shared if rest.is_empty() => Ok(Entry::Shared),
        Key::Case if !rest.is_empty() => Ok(Entry::Case(String::from_str(alloc, rest)?)),
        Key::Batch if rest.is_empty() => Ok(Entry::Batch),
        Key::Shared | Key::Case | Key::Batch => Err(Trouble::Words),
        Key::Text => Ok(Entry::Text(named(alloc, rest, lines)?)),
        Key::Words => Ok(Entry::Words(words_of(alloc, rest)?)),
        Key::File => Ok(Entry::File(named(alloc, rest, lines)?)),
        Key::Folder => Ok(Entry::Folder(word_of(alloc, rest)?)),
        Key::Document => Ok(Entry::Documents(read_document(alloc, rest, lines)?)),
        Key::Documents => Ok(Entry::Documents(read_documents(alloc, rest, lines)?)),
        Key::Fail => fail(alloc, rest),
        Key::Room => room(rest),
        Key::Piece => piece(rest),
        Key::Gains(stream) => gain(alloc, stream, rest, lines),
        Key::Link => Ok(Entry::Links(1, begun(alloc, rest, lines)?)),
        Key::Links => links(alloc, rest, lines),
        Key::Status => Ok(Entry::Status(number_of(rest)?)),
        Key::Calls => Ok(Entry::Calls(number_of(rest)?)),
        Key::Hold => Ok(Entry::Hold(number_of(rest)?)),
        Key::Asked => Ok(Entry::Asked(words_of(alloc, rest)?)),
        Key::Opened => Ok(Entry::Opened(words_of(alloc, rest)?)),
    }
}

/// `65 "get\n"`: so many links, and what each gives.
fn links(alloc: Global, rest: &str, lines: &[Line]) -> Result<Entry, Trouble> {
    let (count, piece) = rest.split_once(' ').unwrap_or((rest, ""));
    Ok(Entry::Links(number_of(count)?, begun(alloc, piece, lines)?))
}

/// `store 1 2`: which calls of what fail.
fn fail(alloc: Global, rest: &str) -> Result<Entry, Trouble> {
    let (part, calls) = rest.split_once(' ').unwrap_or((rest, ""));
    let part = match part {
        "store" => Part::Store,
        "folder" => Part::Folder,
        "door" => Part::Door,
        "read" => Part::Reads,
        "write" => Part::Stream(Stream::Link),
        _ => Part::Stream(stream(part)?),
    };
    Ok(Entry::Fail(part, calls_of(alloc, calls)?))
}

fn stream(word: &str) -> Result<Stream, Trouble> {
    match word {
        "out" => Ok(Stream::Out),
        "err" => Ok(Stream::Err),
        "link" => Ok(Stream::Link),
        _ => Err(Trouble::Words),
    }
}

/// `out 10`: a stream and a number of bytes.
fn size(rest: &str) -> Result<(Stream, usize), Trouble> {
    let Some((word, number)) = rest.split_once(' ') else {
        return Err(Trouble::Words);
    };
    Ok((stream(word)?, number_of(number)?))
}

fn room(rest: &str) -> Result<Entry, Trouble> {
    let (stream, bytes) = size(rest)?;
    Ok(Entry::Room(stream, bytes))
}

fn piece(rest: &str) -> Result<Entry, Trouble> {
    match size(rest)? {
        (_, 0) => Err(Trouble::Words),
        (stream, bytes) => Ok(Entry::Piece(stream, bytes)),
    }
}

/// How much of a text has to be gained, and where the text begins: after `front of` a front of it, with `some journal` or
/// `any` any text, else all of it.
fn measured(rest: &str) -> (Measure, &str) {
    match rest.strip_prefix("front of") {
        Some(piece) => (Measure::Front, piece.trim_start()),
        None if rest == "some journal" => (Measure::SomeJournal, ""),
        None if rest == "any" => (Measure::Any, ""),
        None => (Measure::All, rest),
    }
}

/// What a stream gains.
fn gain(alloc: Global, stream: Stream, rest: &str, lines: &[Line]) -> Result<Entry, Trouble> {
    let (measure, piece) = measured(rest);
    let text = begun(alloc, piece, lines)?;
    Ok(Entry::Gain(stream, Gain { measure, text }))
}

/// Adds a piece to what the last entry began.
pub fn add_piece(alloc: Global, lines: &mut Vec<Line>, piece: &str) -> Result<(), Trouble> {
    let text = begun(alloc, piece, lines.as_slice())?;
    let Some(last) = lines.last_mut() else {
        return Err(Trouble::Words);
    };
    if matches!(last.entry, Entry::Faulty) {
        return Ok(());
    }
    match text_in(&mut last.entry) {
        Some(begun) => Ok(begun.append(text.as_bytes())?),
        None => Err(Trouble::Words),
    }
}

/// The text that an entry began.
fn text_in(entry: &mut Entry) -> Option<&mut Bytes> {
    match entry {
        Entry::Text(file) | Entry::File(file) => Some(&mut file.body),
        Entry::Documents(documents) => Some(&mut documents.body),
        Entry::Gain(_, gain) => Some(&mut gain.text),
        Entry::Links(_, input) => Some(input),
        _ => None,
    }
}
