//! The text of a journal in pages. They are made from the last one on, and a page's entries are dropped once it is made: a
//! run's last entries have the most to let go.

ghost use Rattle.std.specs.Prelude.{◌≡◌, ◌<◌, ◌≤◌, ◌++◌, length, take, drop, reverse, OnOk, IfOk};
ghost use Rattle.std.specs.List.{flat_map};
ghost use Rattle.flow_model.specs.Texts.{printed_entry, printed_journal};
ghost use Rattle.flux_journal.specs.Formats.{printed_journal_2};
ghost use Rattle.flux_journal.specs.steps.Paged.{text_of};

use crate::pages::Pages;
use crate::phrases::Phrases;
use crate::printing::{append_entries, append_head, reckoned, with_room};
use flow_model::{Entry, Journal};
use flux_model::Program;
use flux_values::{Bytes, List, Memory};
use std::alloc::Global;

/// How many lines the last page has, of which nothing is known yet.
const LAST_LINES: usize = 64;
/// How many bytes a page is to have.
const PAGE_LENGTH: usize = 32_768;
/// How many bytes a page has room for: a sixteenth more, since its lines may be longer than those it was reckoned by.
const PAGE_ROOM: usize = 34_816;

/// The one text of a journal in format 1.
pub fn print_pages(alloc: Global, program: &Program, mut journal: Journal) -> Result<Pages, Memory>
    ensures { IfOk result (λ pages. pages ≡ printed_journal program.now journal) }
{
    print_behind(alloc, b"", program, &mut journal.entries)
}

/// The one text of a journal of so many flows in format 2.
pub fn print_pages_2(
    alloc: Global,
    program: &Program,
    mut journal: Journal,
    flows: u32,
) -> Result<Pages, Memory>
    ensures { IfOk result (λ pages. pages ≡ printed_journal_2 program.now flows journal) }
{
    let mut head = Bytes::new(alloc);
    append_head(&mut head, flows, journal.entries.len() as u64)?;
    print_behind(alloc, head.as_bytes(), program, &mut journal.entries)
}

/// A head, and the lines of entries after it. The entries of the first page are left.
fn print_behind(
    alloc: Global,
    head: &[u8],
    program: &Program,
    entries: &mut List<Entry>,
) -> Result<Pages, Memory>
    ensures { IfOk result (λ pages. pages ≡ head.now ++ flat_map (printed_entry program.now) entries.old) }
{
    let phrases = Phrases::new(alloc, program, entries.len())?;
    let later = print_later(alloc, &phrases, entries)?;
    let mut first = with_room(alloc, reckoned(entries).min(PAGE_ROOM));
    first.append(head)?;
    append_entries(alloc, &mut first, &phrases, entries.as_slice())?;
    Pages::from_last(alloc, first, later)
}

/// The pages after the first one, from the last one on. The first page's entries are left.
fn print_later(
    alloc: Global,
    phrases: &Phrases,
    entries: &mut List<Entry>,
) -> Result<List<Bytes>, Memory>
    ensures { IfOk result (λ pages. flat_map (printed_entry phrases.now) entries.new ++ text_of (reverse pages)
        ≡ flat_map (printed_entry phrases.now) entries.old) }
{
    let mut pages = List::new(alloc);
    let mut lines = LAST_LINES;
    'pages: while entries.len() > lines {
        let from = entries.len() - lines;
        let page = print_last(alloc, phrases, entries, from)?;
        lines = lines_in_page(lines, page.as_bytes().len());
        pages.add(page)?;
    }
    Ok(pages)
}

/// How many lines a page is to have, if they are as long as so many lines of so many bytes; at most twice as many, as they
/// may be longer.
fn lines_in_page(lines: usize, length: usize) -> usize
    ensures { 0 < result }
{
    let more = lines.saturating_mul(PAGE_LENGTH) / length.max(1);
    more.min(lines.saturating_mul(2)).max(1)
}

/// The page of the entries from a place on, which are let go.
fn print_last(
    alloc: Global,
    phrases: &Phrases,
    entries: &mut List<Entry>,
    from: usize,
) -> Result<Bytes, Memory>
    requires { from ≤ length entries.old }
    ensures left { OnOk result (entries.new ≡ take from entries.old) }
    ensures text { IfOk result (λ page. page ≡ flat_map (printed_entry phrases.now) (drop from entries.old)) }
{
    let mut page = with_room(alloc, PAGE_ROOM);
    append_entries(alloc, &mut page, phrases, &entries.as_slice()[from..])?;
    let_go(entries, from);
    Ok(page)
}

/// Lets go the entries from a place on.
fn let_go(entries: &mut List<Entry>, from: usize)
    requires { from ≤ length entries.old }
    ensures { entries.new ≡ take from entries.old }
{
    'entries: while entries.len() > from {
        drop(entries.pop());
    }
}
