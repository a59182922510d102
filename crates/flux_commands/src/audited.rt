//! The verdict on the text of a journal, and the swarm of a hash after one that is right.

ghost use Rattle.std.specs.Prelude.{◌≡◌, IfOk};
ghost use Rattle.std.specs.Arc.{arc_value};
ghost use Rattle.flux_model.specs.Names.{IsNamed};
ghost use Rattle.flux_laws.specs.Hoisted.{locks_of};
ghost use Rattle.flux_audit.specs.Verdicts.{HasVerdict};
ghost use Rattle.flux_runs.specs.Setups.{setup_of};
ghost use Rattle.flux_runs.specs.Opening.{CanRun};
ghost use Rattle.flux_commands.specs.steps.Auditing.{IsVerdictText, IsPreparedSwarm};

use crate::prepared::Prepared;
use flux_audit::{Verdict, audit, print_verdict};
use flux_hoist::Checked;
use flux_library::Library;
use flux_model::{Item, Program};
use flux_runs::set_up;
use flux_swarms::{legal_calls_are_right, print_swarm};
use flux_values::{List, Memory};
use std::alloc::Global;
use std::sync::Arc;

/// The program that the items ran through, and the verdict on their journal.
fn judge<L: Library>(
    alloc: Global,
    library: Arc<L>,
    checked: Checked,
    items: List<Item>,
    journal: &[u8],
) -> Result<(Arc<Program>, Verdict), Memory>
    requires can { CanRun (L.meaning (arc_value library)) checked.program items }
    requires named { IsNamed checked.program }
    ensures same { IfOk result (λ judged. arc_value judged.0 ≡ checked.program) }
    ensures has { IfOk result (λ judged. HasVerdict (setup_of checked.program (locks_of checked.program) items
        (L.meaning (arc_value library))) journal.now judged.1) }
{
    let setup = set_up(alloc, library, checked, items)?;
    let program = Arc::try_clone(&setup.program)?;
    let verdict = audit(alloc, setup, journal)?;
    Ok((program, verdict))
}

/// The line of the verdict on a journal of the items.
pub fn audit_text<L: Library>(
    alloc: Global,
    library: Arc<L>,
    checked: Checked,
    items: List<Item>,
    journal: &[u8],
) -> Result<Prepared, Memory>
    requires can { CanRun (L.meaning (arc_value library)) checked.program items }
    requires named { IsNamed checked.program }
    ensures { IfOk result (IsVerdictText (setup_of checked.program (locks_of checked.program) items
        (L.meaning (arc_value library))) journal.now) }
{
    let (_, verdict) = judge(alloc, library, checked, items, journal)?;
    let text = print_verdict(alloc, verdict)?;
    match verdict {
        Verdict::Yes { .. } => Ok(Prepared::text(alloc, text)),
        Verdict::No { .. } => Ok(Prepared::No(text)),
    }
}

/// What is printed of the swarm of a hash after a journal of the items, or the line of the verdict that it isn't right.
///
/// A journal that is right is read once more, and so reads.
pub fn swarm_text<L: Library>(
    alloc: Global,
    library: Arc<L>,
    checked: Checked,
    items: List<Item>,
    journal: &[u8],
    hash: &[u8],
) -> Result<Prepared, Memory>
    requires can { CanRun (L.meaning (arc_value library)) checked.program items }
    requires named { IsNamed checked.program }
    ensures { IfOk result (IsPreparedSwarm (setup_of checked.program (locks_of checked.program) items
        (L.meaning (arc_value library))) journal.now hash.now) }
{
    let own = Arc::try_clone(&library)?;
    let (program, verdict) = judge(alloc, library, checked, items, journal)?;
    match verdict {
        Verdict::Yes { .. } => {
            legal_calls_are_right();
            let text = print_swarm(alloc, &program, journal, &*own, hash)?;
            Ok(Prepared::text(alloc, text))
        }
        Verdict::No { .. } => Ok(Prepared::No(print_verdict(alloc, verdict)?)),
    }
}
