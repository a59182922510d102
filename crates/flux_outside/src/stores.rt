//! Files that are read whole.

ghost use Rattle.std.specs.Prelude.{◌≡◌, ℕ, List, Option, IfOk, IfSome};
ghost use Rattle.flux_outside.specs.Causes.{HasStoreCause};
ghost use Rattle.flux_outside.specs.Stores.{file_of, FitsIn, AskedFor};

use crate::faults::StoreFault;
use flux_values::Bytes;
use std::alloc::Global;

/// What a store has under a name.
#[derive(Drop)]
pub enum File {
    Found(Bytes),
    Missing,
    /// There is a file, and it has more bytes than were asked for.
    Longer,
}

/// Gives files by name.
pub trait Store {
    /// The contents of each file by its name, where they are reported.
    ghost files: { Self → Option (List ℕ → Option (List ℕ)) };

    /// The names that it was asked for, in order.
    ghost asked: { Self → List (List ℕ) };

    /// How often the store has failed.
    ghost faults: { Self → ℕ };

    /// The file of a name, if it has at most `max` bytes.
    fn read_file(&mut self, alloc: Global, name: &[u8], max: usize) -> Result<File, StoreFault>
        ensures kept { files self.new ≡ files self.old }
        ensures asked { AskedFor (asked self.old) (asked self.new) name.now }
        ensures limit { IfOk result (FitsIn max) }
        ensures told { IfSome (files self.old) (λ files. IfOk result (λ file. file ≡ file_of (files name.now) max)) }
        ensures cause { HasStoreCause (faults self.old) (faults self.new) result };
}
