//! What is reported of cases.

use flux_spelling::append_number;
use flux_values::{Bytes, Memory};
use std::alloc::Global;

/// The lines about wrong cases, and how many cases there were and how many were wrong.
#[derive(Drop)]
pub struct Report {
    text: Bytes,
    cases: u64,
    wrong: u64,
}

impl Report {
    pub fn new(alloc: Global) -> Report {
        Report {
            text: Bytes::new(alloc),
            cases: 0,
            wrong: 0,
        }
    }

    pub fn text(&self) -> &[u8] {
        self.text.as_bytes()
    }

    pub fn cases(&self) -> u64 {
        self.cases
    }

    pub fn wrong(&self) -> u64 {
        self.wrong
    }

    /// Counts what another report counts.
    pub fn count(&mut self, other: &Report) {
        self.cases = self.cases.saturating_add(other.cases);
        self.wrong = self.wrong.saturating_add(other.wrong);
    }

    pub fn count_case(&mut self) {
        self.cases = self.cases.saturating_add(1);
    }

    /// Begins the lines about something wrong at a line of a file.
    pub fn add_wrong(
        &mut self,
        alloc: Global,
        file: &str,
        line: usize,
        what: &str,
    ) -> Result<(), Memory> {
        self.wrong = self.wrong.saturating_add(1);
        self.text.append(file.as_bytes())?;
        self.text.append(b":")?;
        append_number(alloc, &mut self.text, line as u64)?;
        self.text.append(b": ")?;
        self.text.append(what.as_bytes())?;
        self.text.append(b"\n")
    }

    /// Adds a line about what differs.
    pub fn add_difference(&mut self, difference: &[u8]) -> Result<(), Memory> {
        self.text.append(b"  ")?;
        self.text.append(difference)?;
        self.text.append(b"\n")
    }
}
