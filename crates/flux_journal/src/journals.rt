//! A journal read.

ghost use Rattle.std.specs.Prelude.{◌≡◌, ◌<◌, ◌≤◌, ◌^◌, ℕ, [], Ok, Err, IfErr, OnOk, length};
ghost use Rattle.flux_values.specs.Answers.{IsOrMemory};
ghost use Rattle.flow_model.specs.declared.journals.Journal.{Journal};
ghost use Rattle.flux_model.specs.Names.{IsNamed};
ghost use Rattle.flow_model.specs.Texts.{printed_journal};
ghost use Rattle.flux_model.specs.Numbered.{IsNumbered};
ghost use Rattle.flux_journal.specs.declared.faults.JournalFault.TheVariants as faults;
ghost use Rattle.flux_journal.specs.Formats.{printed_journal_2};
ghost use Rattle.flux_journal.specs.Entries.{AreEntriesOf};
ghost use Rattle.flux_journal.specs.Journals.{lines_of, IsWellHeaded, AreEntryLines, ReadsAs, IsBadLine, HasCause};
ghost use Rattle.flux_journal.specs.steps.Lines.{AreEntriesRead};
ghost use Rattle.flux_journal.specs.steps.Named.{IsReady};

use crate::faults::{JournalFault, LineFault};
use crate::lines::Reader;
use crate::texts::{count_lines, is_head, is_headed, split_line};
use flow_model::{Entry, Journal};
use flux_model::Program;
use flux_values::List;
use std::alloc::Global;

/// Adds the entries of lines, the first of which has this number, where there are none yet.
fn add_entries(
    reader: &Reader,
    entries: &mut List<Entry>,
    text: &[u8],
    first: u64,
) -> Result<(), JournalFault>
    requires ready { IsReady reader.now.program.now reader.now.names }
    requires none { entries.old ≡ [] }
    requires first { first ≤ 2 }
    ensures read { OnOk result (AreEntryLines reader.now.program.now (lines_of text.now) entries.new) }
    ensures bad { IfErr result (λ fault.
        AreEntriesRead reader.now.program.now (lines_of text.now) first (Err fault)) }
{
    let mut number = first;
    let mut rest = text;
    'lines: while !rest.is_empty() {
        let (line, behind) = split_line(rest);
        match reader.entry(line) {
            Ok(entry) => entries.add(entry)?,
            Err(LineFault::BadLine) => return Err(JournalFault::BadLine { line: number }),
            Err(LineFault::Memory) => return Err(JournalFault::Memory),
        }
        number += 1;
        rest = behind;
    }
    Ok(())
}

/// The entries of lines, the first of which has this number.
fn read_entries(
    alloc: Global,
    program: &Program,
    text: &[u8],
    first: u64,
) -> Result<Journal, JournalFault>
    requires numbered { IsNumbered program.now }
    requires named { IsNamed program.now }
    requires first { first ≤ 2 }
    ensures { AreEntriesRead program.now (lines_of text.now) first result }
{
    let reader = Reader::new(alloc, program)?;
    let mut entries = List::new(alloc);
    add_entries(&reader, &mut entries, text, first)?;
    Ok(Journal { entries })
}

/// The journal that a text reads as, in either format, or its first bad line.
///
/// A text that begins with `flux journal` is of format 2. Its first line is the head line, with the number
/// of the lines after it. Each other line spells an entry; the last may lack its LF.
pub fn read_journal(alloc: Global, program: &Program, bytes: &[u8]) -> Result<Journal, JournalFault>
    requires numbered { IsNumbered program.now }
    requires named { IsNamed program.now }
    // Each answer has its cause.
    ensures cause { HasCause program.now bytes.now result }
    // Each cause has its answer, but for want of memory.
    ensures journal { (journal : Journal) → ReadsAs program.now bytes.now journal
        → IsOrMemory faults.Memory (Ok journal) result }
    ensures bad { (line : ℕ) → IsBadLine program.now bytes.now line
        → IsOrMemory faults.Memory (Err (faults.BadLine line)) result }
    // A bad head is answered without taking memory.
    ensures head { (IsWellHeaded bytes.now → ⊥) → result ≡ Err (faults.BadLine 1) }
    // The printed texts of a journal of the program's entries are read as that journal.
    ensures again { (journal : Journal) → AreEntriesOf program.now journal.entries
        → bytes.now ≡ printed_journal program.now journal → IsOrMemory faults.Memory (Ok journal) result }
    ensures again_2 { (journal : Journal) (flows : ℕ) → AreEntriesOf program.now journal.entries
        → length journal.entries < 2 ^ 64 → flows < 2 ^ 32
        → bytes.now ≡ printed_journal_2 program.now flows journal → IsOrMemory faults.Memory (Ok journal) result }
{
    read_all(alloc, program, bytes)
}

fn read_all(alloc: Global, program: &Program, bytes: &[u8]) -> Result<Journal, JournalFault>
    requires numbered { IsNumbered program.now }
    requires named { IsNamed program.now }
    ensures cause { HasCause program.now bytes.now result }
    ensures head { (IsWellHeaded bytes.now → ⊥) → result ≡ Err (faults.BadLine 1) }
{
    if !is_headed(bytes) {
        return read_entries(alloc, program, bytes, 1);
    }
    let (head, rest) = split_line(bytes);
    if is_head(head, count_lines(rest)) {
        read_entries(alloc, program, rest, 2)
    } else {
        Err(JournalFault::BadLine { line: 1 })
    }
}
