//! The files of a command.

ghost use Rattle.std.specs.Prelude.{◌≡◌, ◌≤◌, ◌++◌, [], ◌∷◌, IfOk, IfErr};
ghost use Rattle.flux_outside.specs.declared.stores.File.TheVariants as files;
ghost use Rattle.flux_commands.specs.Told.{Gives};
ghost use Rattle.flux_commands.specs.steps.Refusals.{IsUnread, Counts};

use crate::refusals::Refusal;
use flux_outside::{File, Store, StoreFault};
use flux_values::Bytes;
use std::alloc::Global;

/// A program file has at most so many bytes.
pub const PROGRAM_FILE_LIMIT: usize = 2_097_152;

/// An items file has at most so many bytes.
pub const ITEMS_FILE_LIMIT: usize = 16_777_216;

/// A journal's file has at most so many bytes.
pub const JOURNAL_FILE_LIMIT: usize = 268_435_456;

/// The bytes of a file.
pub fn load<'a, S: Store>(
    alloc: Global,
    store: &mut S,
    name: &'a [u8],
    max: usize,
) -> Result<Bytes, Refusal<'a>>
    ensures kept { S.files store.new ≡ S.files store.old }
    ensures asked { S.asked store.new ≡ S.asked store.old ++ name.now ∷ [] }
    ensures later { S.faults store.old ≤ S.faults store.new }
    ensures found { IfOk result (λ text. Gives (S.files store.old) name.now max
        (files.Found text)) }
    ensures unread { IfErr result (IsUnread (S.files store.old) name.now max) }
    ensures counts { Counts result (S.faults store.old) (S.faults store.new) }
{
    match store.read_file(alloc, name, max) {
        Ok(File::Found(text)) => Ok(text),
        Ok(File::Missing) => Err(Refusal::Missing(name)),
        Ok(File::Longer) => Err(Refusal::Missing(name)),
        Err(StoreFault::Failed) => Err(Refusal::Read),
        Err(StoreFault::Memory) => Err(Refusal::Memory),
    }
}
