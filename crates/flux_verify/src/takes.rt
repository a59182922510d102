//! Lists of takes.

ghost use Rattle.std.specs.Prelude.{◌≡◌, OnOk};
ghost use Rattle.std.specs.List.{list_any};
ghost use Rattle.flux_verify.specs.steps.Checks as checks;
ghost use Rattle.flux_verify.specs.steps.Orders as orders;

use flux_model::{Hold, at_least};
use flux_values::{List, Memory};

/// Whether takes have a class in at least a mode.
pub fn covers(takes: &[Hold], hold: Hold) -> bool
    ensures { result ≡ checks.covers takes.now hold }
{
    takes.iter().any(|own| own.class.0 == hold.class.0 && at_least(own.mode, hold.mode))
}

/// Whether takes have a class that isn't less.
fn has_past(takes: &[Hold], hold: Hold) -> bool
    ensures { result ≡ checks.has_past takes.now hold }
{
    takes.iter().any(|own| hold.class.0 <= own.class.0)
}

/// Whether takes lack one of a class that isn't above all of theirs.
pub fn lacks(takes: &[Hold], hold: Hold) -> bool
    ensures { result ≡ checks.lacks takes.now hold }
{
    has_past(takes, hold) && !covers(takes, hold)
}

/// Whether takes lack one of others.
pub fn lacks_any(takes: &[Hold], others: &[Hold]) -> bool
    ensures { result ≡ list_any (checks.lacks takes.now) others.now }
{
    others.iter().any(|hold| lacks(takes, *hold))
}

/// Adds a take, where no other covers it.
fn add_take(takes: &mut List<Hold>, take: Hold) -> Result<(), Memory>
    ensures { OnOk result (takes.new ≡ orders.with_take takes.old take) }
{
    if covers(takes.as_slice(), take) {
        return Ok(());
    }
    takes.add(take)
}

/// Adds takes, each where no other covers it.
pub fn add_takes(takes: &mut List<Hold>, others: &[Hold]) -> Result<(), Memory>
    ensures { OnOk result (takes.new ≡ orders.with_takes takes.old others.now) }
{
    for take in others {
        add_take(takes, *take)?;
    }
    Ok(())
}
