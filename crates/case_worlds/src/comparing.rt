//! What came of a case's command line, held against what the case wants.

use crate::calls::{calls_in, has_journal};
use crate::clients::clients_of;
use crate::parts::Parts;
use case_files::{Case, Differences, Stream};
use flux_doors::{MemoryDoor, MemoryLink};
use flux_spelling::append_text;
use flux_values::{Bytes, Memory};
use std::alloc::Global;

/// What a command line came to.
#[derive(Drop)]
pub struct Outcome {
    pub status: u8,
    /// How many calls of nodes the gate saw; none where it saw them mixed up.
    pub told: Option<u64>,
    /// Whether a call of another flow began while the first one was held.
    pub was_met: bool,
    /// What is left of the world.
    pub parts: Parts<MemoryDoor>,
}

/// Compares what a case's words came to with what it wants.
pub fn compare_outcome(
    alloc: Global,
    differences: &mut Differences,
    case: &Case,
    words: &[Bytes],
    outcome: &Outcome,
) -> Result<(), Memory> {
    differences.compare_status(outcome.status, case.status.unwrap_or(0))?;
    compare_parts(alloc, differences, case, &outcome.parts)?;
    compare_told(differences, case, words, outcome)?;
    compare_held(differences, case, outcome.was_met)
}

/// Compares what the streams gained, what was asked for and what the links were written.
fn compare_parts(
    alloc: Global,
    differences: &mut Differences,
    case: &Case,
    parts: &Parts<MemoryDoor>,
) -> Result<(), Memory> {
    let (out, err) = (parts.out.written(), parts.err.written());
    differences.compare_gain(b"out", Stream::Out, out, case.gains(Stream::Out))?;
    differences.compare_gain(b"err", Stream::Err, err, case.gains(Stream::Err))?;
    differences.compare_names(b"asked", parts.store.names.all(), case.asked)?;
    differences.compare_names(b"opened", parts.folder.names.all(), case.opened)?;
    compare_links(alloc, differences, case, &parts.door)
}

/// What the link at a place was written.
fn written_on(links: &[MemoryLink], place: usize) -> &[u8] {
    match links.get(place) {
        Some(link) => link.written(),
        None => b"",
    }
}

/// Compares what each link was written with what it has to be. A link that didn't come to the door was written nothing.
fn compare_links(
    alloc: Global,
    differences: &mut Differences,
    case: &Case,
    door: &MemoryDoor,
) -> Result<(), Memory> {
    let back = door.taken_back();
    for (place, client) in clients_of(alloc, case)?.iter().enumerate() {
        differences.compare_link(place, written_on(back, place), client.lines)?;
    }
    Ok(())
}

/// Tells where the first call of a case was to be held until another flow's, and wasn't met by one.
fn compare_held(differences: &mut Differences, case: &Case, was_met: bool) -> Result<(), Memory> {
    if case.hold.is_some() && !was_met {
        differences.tell(b"no call of another flow while the first was held")?;
    }
    Ok(())
}

/// Compares the calls that the gate saw with those that are wanted, and with those that were printed.
fn compare_told(
    differences: &mut Differences,
    case: &Case,
    words: &[Bytes],
    outcome: &Outcome,
) -> Result<(), Memory> {
    if let Some(calls) = case.calls {
        differences.compare_calls(outcome.told, calls as u64)?;
    }
    if outcome.status == 0 && has_journal(words) {
        differences.compare_calls(outcome.told, calls_in(outcome.parts.out.written()))?;
    }
    Ok(())
}

/// Tells where the audit of a journal that was printed didn't say yes.
pub fn compare_verdict(
    alloc: Global,
    differences: &mut Differences,
    outcome: &Outcome,
) -> Result<(), Memory> {
    let verdict = outcome.parts.out.written();
    if outcome.status == 0 && verdict.starts_with(b"ok ") {
        return Ok(());
    }
    let mut line = Bytes::copy(alloc, b"its journal is refused: ")?;
    append_text(&mut line, verdict)?;
    differences.tell(line.as_bytes())
}
