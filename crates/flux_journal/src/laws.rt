//! Laws of the definitions, each as a clause of a function that does nothing.

ghost use Rattle.flux_journal.specs.Laws.{PrintedReads, PrintedReads2, ReadsOnce, SpellsEntries};

/// The printed texts of a journal of the program's entries read as that journal, and no text reads as two.
/// What a text spells are entries of the program.
pub fn text_law()
    ensures printed { PrintedReads }
    ensures printed_2 { PrintedReads2 }
    ensures once { ReadsOnce }
    ensures entries { SpellsEntries }
{}
