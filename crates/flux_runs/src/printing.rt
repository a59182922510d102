//! The text of a run.

ghost use Rattle.std.specs.Prelude.{◌≡◌, ◌≤◌, length, IfOk};
ghost use Rattle.flux_model.specs.declared.programs.TheConstants.{COUNT_LIMIT};
ghost use Rattle.flux_cells.specs.Kept.{cells_of};
ghost use Rattle.flux_runs.specs.Printed.{printed_in, printed_by};

use crate::summaries::print_summary;
use flow_model::Journal;
use flux_cells::Cells;
use flux_cli::JournalFormat;
use flux_journal::{Pages, print_pages, print_pages_2};
use flux_model::Program;
use flux_values::Memory;
use std::alloc::Global;

/// What is printed of a run.
#[derive(Clone, Copy, PartialEq, Eq)]
pub enum Printing {
    Journal(JournalFormat),
    Summary,
}

/// The text of a journal of so many flows.
fn print_format(
    alloc: Global,
    format: JournalFormat,
    program: &Program,
    flows: u32,
    journal: Journal,
) -> Result<Pages, Memory>
    ensures { IfOk result (λ text. text ≡ printed_in format program.now flows journal) }
{
    match format {
        JournalFormat::One => print_pages(alloc, program, journal),
        JournalFormat::Two => print_pages_2(alloc, program, journal, flows),
    }
}

/// What is printed of a run of so many flows, by its journal, which it lets go, and the cells at its end.
pub fn print(
    alloc: Global,
    printing: Printing,
    program: &Program,
    flows: u32,
    journal: Journal,
    cells: &Cells,
) -> Result<Pages, Memory>
    requires { length program.now.classes ≤ COUNT_LIMIT }
    ensures { IfOk result (λ text. text
        ≡ printed_by printing program.now flows journal (cells_of cells.now)) }
{
    match printing {
        Printing::Journal(format) => print_format(alloc, format, program, flows, journal),
        Printing::Summary => {
            let summary = print_summary(alloc, program, flows, &journal, cells)?;
            Ok(Pages::from_bytes(alloc, summary))
        }
    }
}
