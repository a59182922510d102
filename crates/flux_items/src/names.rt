//! The names of sources, found by hash.

ghost use Rattle.std.specs.Prelude.{◌≡◌, IfOk};
ghost use Rattle.flux_items.specs.Rules.{AreRules};

use crate::rules::ItemRules;
use flux_model::Names;
use flux_values::Memory;
use std::alloc::Global;

/// The names of the sources.
pub fn names_of<'a>(alloc: Global, rules: &'a ItemRules) -> Result<Names<'a>, Memory>
    requires { AreRules rules.now }
    ensures { IfOk result (λ names. let from = rules.now in names ≡ from.names) }
{
    let mut names = Names::new(alloc);
    for name in rules.names.as_slice() {
        names.add(name.as_bytes())?;
    }
    Ok(names)
}
