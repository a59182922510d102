//! Programs' texts, and the lines about their faults.

ghost use Rattle.std.specs.Prelude.{◌≡◌, ◌≤◌, ◌<◌, IfOk, IfErr, length};
ghost use Rattle.flux_faults.specs.declared.places.TheConstants.{PLACE_LIMIT};
ghost use Rattle.flux_syntax.specs.Declares.{Declares};
ghost use Rattle.flux_check.specs.Checked.{IsChecked};
ghost use Rattle.flux_commands.specs.Causes.{fault_text};
ghost use Rattle.flux_commands.specs.steps.Refusals.{SaysOrMemory, IsTextRefused, IsCheckRefused};

use crate::refusals::Refusal;
use flux_check::check;
use flux_faults::{CheckFault, StaticFault, fault_line};
use flux_hoist::Checked;
use flux_library::Library;
use flux_syntax::{Decl, read};
use flux_values::{Bytes, List, Memory};
use std::alloc::Global;

fn static_line(alloc: Global, text: &[u8], fault: &StaticFault) -> Result<Bytes, Memory>
    requires inside { fault.now.at ≤ length text.now }
    requires room { fault.now.at < PLACE_LIMIT }
    ensures { IfOk result (λ line. line ≡ fault_text text.now fault.now) }
{
    let mut line = fault_line(alloc, text, fault)?;
    line.append(b"\n")?;
    Ok(line)
}

/// The refusal of a text for a fault.
fn refuse_text<'a>(alloc: Global, text: &[u8], fault: &StaticFault) -> Refusal<'a>
    requires inside { fault.now.at ≤ length text.now }
    requires room { fault.now.at < PLACE_LIMIT }
    ensures { SaysOrMemory (λ line. line ≡ fault_text text.now fault.now) result }
{
    match static_line(alloc, text, fault) {
        Ok(line) => Refusal::Static(line),
        Err(_) => Refusal::Memory,
    }
}

/// The declarations of a text.
pub fn read_text<'a>(alloc: Global, text: &[u8]) -> Result<List<Decl>, Refusal<'a>>
    ensures declared { IfOk result (λ decls. Declares decls text.now) }
    ensures refused { IfErr result (IsTextRefused text.now) }
{
    match read(alloc, text) {
        Ok(decls) => Ok(decls),
        Err(CheckFault::Static(fault)) => Err(refuse_text(alloc, text, &fault)),
        Err(CheckFault::Memory) => Err(Refusal::Memory),
    }
}

/// The checked program of a text.
pub fn check_text<'a, L: Library>(
    alloc: Global,
    library: &L,
    text: &[u8],
) -> Result<Checked, Refusal<'a>>
    ensures checked { IfOk result (λ checked. IsChecked (L.meaning library.now) text.now
        checked.program checked.sigs.nodes checked.order.nodes checked.sets.nodes checked.sizes) }
    ensures refused { IfErr result (IsCheckRefused (L.meaning library.now) text.now) }
{
    match check(alloc, text, library) {
        Ok(checked) => Ok(checked),
        Err(CheckFault::Static(fault)) => Err(refuse_text(alloc, text, &fault)),
        Err(CheckFault::Memory) => Err(Refusal::Memory),
    }
}
