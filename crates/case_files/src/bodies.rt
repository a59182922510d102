//! Texts that are put together from pieces, and documents that are numbered.

use crate::entries::{Entry, Line};
use crate::spellings::{number_of, text_of, word_of};
use flux_outside::FileBytes;
use flux_spelling::append_number;
use flux_values::{Bytes, List, Memory};
use std::alloc::Global;
use trial_ends::Trouble;

/// Documents of one body. `{n}` in the name means each number in turn.
#[derive(Drop)]
pub struct Documents {
    pub first: usize,
    pub last: usize,
    pub name: Bytes,
    pub body: Bytes,
}

impl Documents {
    /// Adds the documents to a list.
    pub fn add_to(&self, alloc: Global, all: &mut List<FileBytes>) -> Result<(), Memory> {
        for number in self.first..=self.last {
            let mut name = Bytes::new(alloc);
            append_numbered(alloc, &mut name, self.name.as_bytes(), number)?;
            let body = Bytes::copy(alloc, self.body.as_bytes())?;
            all.add(FileBytes { name, body })?;
        }
        Ok(())
    }
}

/// Adds a template with a number in place of `{n}`, the next in place of `{n+1}` and the one before in place of `{n-1}`.
fn append_numbered(
    alloc: Global,
    out: &mut Bytes,
    template: &[u8],
    number: usize,
) -> Result<(), Memory> {
    let mut parts = template.split(|byte| *byte == b'{');
    if let Some(before) = parts.next() {
        out.append(before)?;
    }
    for part in parts {
        append_part(alloc, out, part, number)?;
    }
    Ok(())
}

/// The number that is in place of the words after a brace, and what follows them.
fn numbered(part: &[u8], number: usize) -> Option<(usize, &[u8])> {
    if let Some(rest) = part.strip_prefix(b"n}") {
        Some((number, rest))
    } else if let Some(rest) = part.strip_prefix(b"n+1}") {
        Some((number.saturating_add(1), rest))
    } else if let Some(rest) = part.strip_prefix(b"n-1}") {
        Some((number.saturating_sub(1), rest))
    } else {
        None
    }
}

/// Adds the part of a template after a brace.
fn append_part(alloc: Global, out: &mut Bytes, part: &[u8], number: usize) -> Result<(), Memory> {
    let Some((value, rest)) = numbered(part, number) else {
        out.append(b"{")?;
        return out.append(part);
    };
    append_number(alloc, out, value as u64)?;
    out.append(rest)
}

/// Whether a line is a piece of what the line before it began.
pub fn is_piece(line: &str) -> bool {
    match line.as_bytes() {
        [b'|' | b'"' | b'<' | b'0'..=b'9', ..] => true,
        _ => line.starts_with("for "),
    }
}

/// The line that a piece means, if it means one: what comes after `| `, or an empty one.
fn line_of(piece: &str) -> Option<&str> {
    match piece.strip_prefix('|')? {
        "" => Some(""),
        rest => rest.strip_prefix(' '),
    }
}

fn append_line(out: &mut Bytes, line: &str) -> Result<(), Memory> {
    out.append(line.as_bytes())?;
    out.append(b"\n")
}

/// Adds what a piece means. The lines are those before it, with the texts that it may name.
pub fn append_piece(
    alloc: Global,
    out: &mut Bytes,
    piece: &str,
    lines: &[Line],
) -> Result<(), Trouble> {
    if let Some(line) = line_of(piece) {
        Ok(append_line(out, line)?)
    } else if let Some(rest) = piece.strip_prefix("for ") {
        append_range(alloc, out, rest)
    } else if let Some((count, text)) = piece.split_once(" times ") {
        append_times(alloc, out, number_of(count)?, text)
    } else if piece.starts_with('<') {
        append_named(alloc, out, piece, lines)
    } else {
        Ok(out.append(text_of(alloc, piece)?.as_bytes())?)
    }
}

/// Adds a text so many times: where the count is odd once, and then half as often what is twice as long.
fn append_times(alloc: Global, out: &mut Bytes, count: usize, text: &str) -> Result<(), Trouble> {
    let mut block = text_of(alloc, text)?;
    let mut left = count;
    for _ in 0..usize::BITS {
        if left % 2 == 1 {
            out.append(block.as_bytes())?;
        }
        left /= 2;
        if left == 0 {
            break;
        }
        let again = Bytes::copy(alloc, block.as_bytes())?;
        block.append(again.as_bytes())?;
    }
    Ok(())
}

/// Adds a template for each number of a range, as `1 to 4 "Pass_{n} "`. A range may go down.
fn append_range(alloc: Global, out: &mut Bytes, rest: &str) -> Result<(), Trouble> {
    let (first, last, spelling) = range_of(rest)?;
    let template = text_of(alloc, spelling)?;
    let least = first.min(last);
    for number in least..=first.max(last) {
        let number = if first <= last {
            number
        } else {
            first.saturating_sub(number.saturating_sub(least))
        };
        append_numbered(alloc, out, template.as_bytes(), number)?;
    }
    Ok(())
}

/// The first and the last number of a range, and what follows it.
fn range_of(text: &str) -> Result<(usize, usize, &str), Trouble> {
    let Some((first, behind)) = text.split_once(" to ") else {
        return Err(Trouble::Words);
    };
    let (last, rest) = behind.split_once(' ').unwrap_or((behind, ""));
    Ok((number_of(first)?, number_of(last)?, rest))
}

/// Adds the text of a name between `<` and `>`.
fn append_named(
    alloc: Global,
    out: &mut Bytes,
    piece: &str,
    lines: &[Line],
) -> Result<(), Trouble> {
    let Some((name, "")) = piece.trim_start_matches('<').split_once('>') else {
        return Err(Trouble::Words);
    };
    for line in lines {
        match &line.entry {
            Entry::Text(text) if text.name.as_bytes() == name.as_bytes() => {
                return Ok(out.append(text.body.as_bytes())?);
            }
            _ => {}
        }
    }
    Err(Trouble::Words)
}

/// A name, with the piece that comes after it or nothing.
pub fn named(alloc: Global, rest: &str, lines: &[Line]) -> Result<FileBytes, Trouble> {
    let (name, piece) = rest.split_once(' ').unwrap_or((rest, ""));
    Ok(FileBytes {
        name: word_of(alloc, name)?,
        body: begun(alloc, piece, lines)?,
    })
}

/// A text that begins with a piece or with nothing.
pub fn begun(alloc: Global, piece: &str, lines: &[Line]) -> Result<Bytes, Trouble> {
    let mut text = Bytes::new(alloc);
    if !piece.is_empty() {
        append_piece(alloc, &mut text, piece, lines)?;
    }
    Ok(text)
}

/// Numbered documents, as `1 to 9 doc{n}`, or one where there is no range.
pub fn read_documents(alloc: Global, rest: &str, lines: &[Line]) -> Result<Documents, Trouble> {
    let (first, last, behind) = range_of(rest)?;
    let file = named(alloc, behind, lines)?;
    Ok(Documents {
        first,
        last,
        name: file.name,
        body: file.body,
    })
}

/// One document.
pub fn read_document(alloc: Global, rest: &str, lines: &[Line]) -> Result<Documents, Trouble> {
    let file = named(alloc, rest, lines)?;
    Ok(Documents {
        first: 1,
        last: 1,
        name: file.name,
        body: file.body,
    })
}
