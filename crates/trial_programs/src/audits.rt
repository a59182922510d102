//! Journals that trials make, held against the auditor.

use crate::building::{checked_of, set_up};
use flow_model::{Entry, Event, Journal};
use flux_audit::{Verdict, audit};
use flux_journal::{print_journal, print_journal_2};
use flux_model::Program;
use flux_values::Memory;
use nodes_counter::Counter;
use plain_journals::{Given, check_journal};
use std::alloc::Global;
use trial_ends::Trouble;

/// So many lines at most are left out of a journal, one at a time.
pub const LEFT_OUT: usize = 3;

/// Flows of a program's text, one for each number.
#[derive(Clone, Copy)]
pub struct Flows<'a> {
    pub text: &'a [u8],
    pub given: &'a [Given],
}

/// A text without one of its lines.
fn without(alloc: Global, text: &[u8], left_out: usize) -> Result<Vec<u8>, Memory> {
    let mut kept = Vec::new(alloc);
    let mut line: usize = 0;
    for byte in text {
        if line != left_out {
            kept.push(*byte)?;
        }
        if *byte == b'\n' {
            line = line.saturating_add(1);
        }
    }
    Ok(kept)
}

impl<'a> Flows<'a> {
    /// Whether the auditor takes a text for the journal of a true run.
    fn take(&self, alloc: Global, text: &[u8]) -> Result<bool, Trouble> {
        let setup = set_up(alloc, self.text, self.given, Counter)?;
        match audit(alloc, setup, text)? {
            Verdict::Yes { .. } => Ok(true),
            Verdict::No { .. } => Ok(false),
        }
    }

    /// Whether it takes a text without one of its lines.
    fn take_without(&self, alloc: Global, text: &[u8], left_out: usize) -> Result<bool, Trouble> {
        let rest = without(alloc, text, left_out)?;
        self.take(alloc, rest.as_slice())
    }

    /// Whether it takes the text of entries, of which the first has this line, and not without the line of one that is left out. A
    /// wait may be left out: who waits might not have been asked.
    fn uphold_text(
        &self,
        alloc: Global,
        entries: &[Entry],
        text: &[u8],
        first: usize,
        left_out: usize,
    ) -> Result<bool, Trouble> {
        for number in 0..left_out {
            let place = (entries.len() / LEFT_OUT).saturating_mul(number);
            let is_wait = match entries.get(place) {
                Some(entry) => matches!(entry.event, Event::Wait(..)),
                None => true,
            };
            if !is_wait && self.take_without(alloc, text, place.saturating_add(first))? {
                return Ok(false);
            }
        }
        self.take(alloc, text)
    }

    /// Whether it takes a journal in the first format.
    fn uphold_first(
        &self,
        alloc: Global,
        program: &Program,
        journal: &Journal,
        left_out: usize,
    ) -> Result<bool, Trouble> {
        let text = print_journal(alloc, program, journal)?;
        self.uphold_text(
            alloc,
            journal.entries.as_slice(),
            text.as_bytes(),
            0,
            left_out,
        )
    }

    /// Whether it takes a journal in the second format.
    fn uphold_second(
        &self,
        alloc: Global,
        program: &Program,
        journal: &Journal,
        left_out: usize,
    ) -> Result<bool, Trouble> {
        let Ok(flows) = u32::try_from(self.given.len()) else {
            return Err(Trouble::Wrong);
        };
        let text = print_journal_2(alloc, program, journal, flows)?;
        self.uphold_text(
            alloc,
            journal.entries.as_slice(),
            text.as_bytes(),
            1,
            left_out,
        )
    }

    /// Whether it takes a journal in both formats.
    fn uphold_both(
        &self,
        alloc: Global,
        program: &Program,
        journal: &Journal,
        left_out: usize,
    ) -> Result<bool, Trouble> {
        Ok(
            self.uphold_first(alloc, program, journal, left_out)?
                && self.uphold_second(alloc, program, journal, left_out)?,
        )
    }

    /// Whether the auditor takes a journal for that of a true run of these flows, in both formats, and in neither without one of so
    /// many of its lines.
    pub fn uphold(
        &self,
        alloc: Global,
        journal: &Journal,
        left_out: usize,
    ) -> Result<bool, Trouble> {
        let checked = checked_of(alloc, self.text, &Counter)?;
        self.uphold_both(alloc, &checked.program, journal, left_out)
    }

    /// Whether a journal is what plain lists say that one of these flows must be, and the auditor upholds it.
    pub fn keep_rules(
        &self,
        alloc: Global,
        journal: &Journal,
        left_out: usize,
    ) -> Result<bool, Trouble> {
        let checked = checked_of(alloc, self.text, &Counter)?;
        let program = &checked.program;
        let kept = check_journal(alloc, program, self.given, journal.entries.as_slice());
        Ok(kept.is_ok() && self.uphold_both(alloc, program, journal, left_out)?)
    }
}
