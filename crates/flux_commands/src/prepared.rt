//! What a command prints, which is made before any of it is written.

ghost use Rattle.std.specs.Prelude.{◌≡◌};
ghost use Rattle.flux_commands.specs.declared.prepared.Prepared.TheVariants as prepared;

use flux_journal::Pages;
use flux_values::Bytes;
use std::alloc::Global;

/// What a command prints.
#[derive(Drop)]
pub enum Prepared {
    /// What it was asked for.
    Text(Pages),
    /// Its verdict, which is no.
    No(Bytes),
}

impl Prepared {
    /// What it was asked for, as one page.
    pub fn text(alloc: Global, text: Bytes) -> Prepared
        ensures { result ≡ prepared.Text text }
    {
        Prepared::Text(Pages::from_bytes(alloc, text))
    }
}
