//! The lines of a case file, read one after another.

use crate::bodies::is_piece;
use crate::entries::{Entry, Line};
use crate::settings::{add_piece, read_entry};
use flux_values::Memory;
use std::alloc::Global;
use trial_ends::Trouble;

/// What a text's lines say. Blank lines and those that begin with `#` say nothing.
pub fn read_lines(alloc: Global, text: &str) -> Result<Vec<Line>, Memory> {
    let mut lines = Vec::new(alloc);
    let mut number = 0usize;
    for line in text.lines() {
        number = number.saturating_add(1);
        if line.is_empty() || line.starts_with('#') {
            continue;
        }
        read_line(alloc, &mut lines, number, line)?;
    }
    Ok(lines)
}

/// Reads one line after those before it.
fn read_line(
    alloc: Global,
    lines: &mut Vec<Line>,
    number: usize,
    line: &str,
) -> Result<(), Memory> {
    let read = if is_piece(line) {
        add_piece(alloc, lines, line)
    } else {
        add_entry(alloc, lines, number, line)
    };
    match read {
        Ok(()) => Ok(()),
        Err(Trouble::Words) => Ok(lines.push(Line {
            number,
            entry: Entry::Faulty,
        })?),
        Err(_) => Err(Memory),
    }
}

fn add_entry(
    alloc: Global,
    lines: &mut Vec<Line>,
    number: usize,
    line: &str,
) -> Result<(), Trouble> {
    let entry = read_entry(alloc, line, lines.as_slice())?;
    Ok(lines.push(Line { number, entry })?)
}
