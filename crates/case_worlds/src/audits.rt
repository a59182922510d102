//! What audits the journal that a run printed: its words, and a world in which nothing fails.

use crate::parts::{Entrance, Parts, file_of, files_of, folder_with, store_with};
use crate::watched::{WatchedFolder, WatchedStore};
use case_files::Case;
use flux_outside::MemorySink;
use flux_values::{Bytes, List, Memory};
use std::alloc::Global;

/// The name of the journal's file, which no case has.
const JOURNAL: &[u8] = b"the journal that was printed";

/// How many bytes a verdict has at most.
const ROOM: usize = 4_096;

/// Whether a word names a run's runtime or its format, which the word after it gives.
fn is_option(word: &[u8]) -> bool {
    word == b"--runtime".as_slice() || word == b"--journal".as_slice()
}

/// Whether a word tells a run's runtime or its format.
fn is_setting(word: &[u8]) -> bool {
    word.starts_with(b"--runtime=") || word.starts_with(b"--journal=")
}

/// Adds a copy of a word.
fn add_word(alloc: Global, audit: &mut List<Bytes>, word: &[u8]) -> Result<(), Memory> {
    audit.add(Bytes::copy(alloc, word)?)
}

/// Adds the words of a run that an audit has too.
fn add_words(alloc: Global, audit: &mut List<Bytes>, words: &[Bytes]) -> Result<(), Memory> {
    let mut is_value = false;
    for word in words.iter().skip(1) {
        let word = word.as_bytes();
        let is_left_out = is_value || is_option(word) || is_setting(word);
        is_value = !is_value && is_option(word);
        if !is_left_out {
            add_word(alloc, audit, word)?;
        }
    }
    Ok(())
}

/// The words that audit a run's journal: those of the run, without its runtime and its format.
pub fn audit_words(alloc: Global, words: &[Bytes]) -> Result<List<Bytes>, Memory> {
    let mut audit = List::new(alloc);
    add_word(alloc, &mut audit, b"audit")?;
    add_words(alloc, &mut audit, words)?;
    add_word(alloc, &mut audit, JOURNAL)?;
    Ok(audit)
}

/// The files of a case, and the journal.
fn audit_store(alloc: Global, case: &Case, journal: &[u8]) -> Result<WatchedStore, Memory> {
    let mut files = files_of(alloc, case)?;
    files.add(file_of(alloc, JOURNAL, journal)?)?;
    Ok(store_with(alloc, files, List::new(alloc)))
}

/// A stream with room for a verdict.
fn verdict_sink(alloc: Global) -> Result<MemorySink, Memory> {
    MemorySink::new(alloc, ROOM, ROOM, List::new(alloc))
}

/// A door that nobody comes in by.
fn nobody(alloc: Global) -> Entrance {
    Entrance {
        batches: List::new(alloc),
        fails: List::new(alloc),
    }
}

/// Two streams with room for a verdict.
fn verdict_sinks(alloc: Global) -> Result<(MemorySink, MemorySink), Memory> {
    let out = verdict_sink(alloc)?;
    let err = verdict_sink(alloc)?;
    Ok((out, err))
}

/// A case's files with the journal, and its documents.
fn audit_places(
    alloc: Global,
    case: &Case,
    journal: &[u8],
) -> Result<(WatchedStore, WatchedFolder), Memory> {
    let store = audit_store(alloc, case, journal)?;
    let folder = folder_with(alloc, case, List::new(alloc))?;
    Ok((store, folder))
}

/// The parts of a world with a case's files and documents and the journal, in which nothing fails.
pub fn audit_parts(alloc: Global, case: &Case, journal: &[u8]) -> Result<Parts<Entrance>, Memory> {
    let (store, folder) = audit_places(alloc, case, journal)?;
    let (out, err) = verdict_sinks(alloc)?;
    Ok(Parts {
        store,
        folder,
        out,
        err,
        door: nobody(alloc),
    })
}
