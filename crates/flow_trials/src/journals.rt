//! A journal's text, printed and read back again and again.

ghost use Rattle.flux_model.specs.Names.{IsNamed};
ghost use Rattle.flux_model.specs.Numbered.{IsNumbered};

use flow_model::Journal;
use flux_hoist::Checked;
use flux_journal::{JournalFault, Pages, print_journal, print_pages, read_journal};
use flux_values::{Bytes, Memory};
use std::alloc::Global;
use trial_ends::Trouble;

/// The journal's text, printed so many times, and at least once.
pub fn print_again(
    alloc: Global,
    checked: &Checked,
    journal: &Journal,
    times: u32,
) -> Result<Bytes, Memory> {
    for _ in 1..times {
        drop(print_journal(alloc, &checked.program, journal)?);
    }
    print_journal(alloc, &checked.program, journal)
}

fn read(alloc: Global, checked: &Checked, text: &[u8]) -> Result<Journal, Trouble>
    requires numbered { IsNumbered checked.now.program }
    requires named { IsNamed checked.now.program }
{
    match read_journal(alloc, &checked.program, text) {
        Ok(journal) => Ok(journal),
        Err(JournalFault::BadLine { .. }) => Err(Trouble::Wrong),
        Err(JournalFault::Memory) => Err(Trouble::Memory),
    }
}

/// Whether pages have this text.
fn have_text(pages: &Pages, text: &[u8]) -> bool {
    let (full, last) = pages.parts();
    let mut rest = text;
    for page in full {
        let page = page.as_bytes();
        if !rest.starts_with(page) {
            return false;
        }
        rest = &rest[page.len()..];
    }
    rest == last
}

/// What is read of a text has the same text, whole and in pages.
fn read_alike(alloc: Global, checked: &Checked, text: &[u8]) -> Result<(), Trouble>
    requires numbered { IsNumbered checked.now.program }
    requires named { IsNamed checked.now.program }
{
    let journal = read(alloc, checked, text)?;
    let again = print_journal(alloc, &checked.program, &journal)?;
    let pages = print_pages(alloc, &checked.program, journal)?;
    if again.as_bytes() == text && have_text(&pages, text) {
        Ok(())
    } else {
        Err(Trouble::Wrong)
    }
}

/// Reads a journal's text so many times. What was read last has the same text.
pub fn read_again(alloc: Global, checked: &Checked, text: &[u8], times: u32) -> Result<(), Trouble>
    requires numbered { IsNumbered checked.now.program }
    requires named { IsNamed checked.now.program }
{
    for _ in 1..times {
        drop(read(alloc, checked, text)?);
    }
    if times > 0 {
        read_alike(alloc, checked, text)?;
    }
    Ok(())
}
