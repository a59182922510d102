//! The words after `audit`.

ghost use Rattle.flux_cli.specs.declared.names.CommandName.TheVariants.{Audit};
ghost use Rattle.flux_cli.specs.steps.Asking.{IsAskedBehind};

use crate::commands::Asked;
use crate::given::{Files, gather};
use flux_values::Bytes;

/// What they ask for.
pub fn read_audit(words: &[Bytes]) -> Option<Asked<'_>>
    ensures { IsAskedBehind Audit words.now result }
{
    let given = gather(words)?;
    let Files::Three(file, items, journal) = given.files else {
        return None;
    };
    if given.runtime.is_some() || given.journal.is_some() {
        return None;
    }
    if given.serves() {
        return None;
    }
    if given.simulates() {
        return None;
    }
    Some(Asked::Audit {
        file,
        items,
        journal,
        docs: given.docs,
    })
}
