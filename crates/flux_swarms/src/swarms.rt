//! The swarm of a journal's text.

ghost use Rattle.std.specs.Prelude.{IfOk};
ghost use Rattle.flow_model.specs.declared.journals.Journal.{Journal};
ghost use Rattle.flux_model.specs.Names.{IsNamed};
ghost use Rattle.flux_model.specs.Numbered.{IsNumbered};
ghost use Rattle.flux_journal.specs.Journals.{ReadsAs};
ghost use Rattle.flux_swarms.specs.Swarms.{Reads, IsSwarmText};

use crate::journal_peers::peers;
use crate::printing::print_peers;
use flow_model::Journal;
use flux_journal::{JournalFault, read_journal};
use flux_library::Library;
use flux_model::Program;
use flux_values::{Bytes, Memory};
use std::alloc::Global;

/// What is printed of the swarm of a hash after the journal that a text reads as.
pub fn print_swarm<L: Library>(
    alloc: Global,
    program: &Program,
    text: &[u8],
    library: &L,
    hash: &[u8],
) -> Result<Bytes, Memory>
    requires numbered { IsNumbered program.now }
    requires named { IsNamed program.now }
    requires reads { Reads program.now text.now }
    ensures { (journal : Journal) → ReadsAs program.now text.now journal → IfOk result
        (IsSwarmText (L.meaning library.now) program.now journal.entries hash.now) }
{
    let journal = read_again(alloc, program, text)?;
    let swarm = peers(alloc, program, &journal, library, hash)?;
    print_peers(alloc, swarm.as_slice())
}

/// The journal that a text is known to read as.
fn read_again(alloc: Global, program: &Program, text: &[u8]) -> Result<Journal, Memory>
    requires numbered { IsNumbered program.now }
    requires named { IsNamed program.now }
    requires reads { Reads program.now text.now }
    ensures { IfOk result (ReadsAs program.now text.now) }
{
    match read_journal(alloc, program, text) {
        Ok(journal) => Ok(journal),
        Err(JournalFault::Memory) => Err(Memory),
        // It reads as a journal.
        Err(JournalFault::BadLine { .. }) => unreachable!(),
    }
}
