//! The line that is written about a fault.

ghost use Rattle.std.specs.Prelude.{◌≡◌, ◌≤◌, ◌<◌, ◌++◌, length, IfOk, OnOk};
ghost use Rattle.flux_faults.specs.Faults.{printed_fault, printed_path, arrows};
ghost use Rattle.flux_faults.specs.steps.Arrows.{arrow_before};

use crate::faults::{FaultKind, StaticFault};
use crate::places::{PLACE_LIMIT, place};
use flux_spelling::append_number;
use flux_values::{Bytes, Memory, TextBytes};
use std::alloc::Global;

/// The line about a fault of the text, without a line end.
pub fn fault_line(alloc: Global, text: &[u8], fault: &StaticFault) -> Result<Bytes, Memory>
    requires inside { fault.now.at ≤ length text.now }
    requires room { fault.now.at < PLACE_LIMIT }
    ensures { IfOk result (λ line. line ≡ printed_fault text.now fault.now) }
{
    let place = place(text, fault.at);
    let mut line = Bytes::new(alloc);
    append_number(alloc, &mut line, place.line as u64)?;
    line.append(b":")?;
    append_number(alloc, &mut line, place.column as u64)?;
    line.append(b": fault ")?;
    append_number(alloc, &mut line, fault.kind.number())?;
    line.append(b" ")?;
    line.append(fault.kind.name())?;
    append_path(&mut line, fault)?;
    Ok(line)
}

fn append_path(line: &mut Bytes, fault: &StaticFault) -> Result<(), Memory>
    ensures { OnOk result (line.new ≡ line.old ++ printed_path fault.now) }
{
    match fault.kind {
        FaultKind::Cycle => {
            line.append(b" ")?;
            append_arrows(line, fault.path.as_slice())
        }
        _ => Ok(()),
    }
}

fn append_arrows(line: &mut Bytes, names: &[TextBytes]) -> Result<(), Memory>
    ensures { OnOk result (line.new ≡ line.old ++ arrows names.now) }
{
    for (place, name) in names.iter().enumerate() {
        append_next(line, place == 0, name)?;
    }
    Ok(())
}

fn append_next(line: &mut Bytes, first: bool, name: &TextBytes) -> Result<(), Memory>
    ensures { OnOk result (line.new ≡ line.old ++ (arrow_before first ++ name.now)) }
{
    line.append(if first { b"" } else { b" -> " })?;
    line.append(name.as_bytes())
}
