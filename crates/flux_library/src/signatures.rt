//! Signatures of nodes.

ghost use Rattle.std.specs.Prelude.{◌≡◌, ◌≤◌, IfOk, length};
ghost use Rattle.flux_values.specs.declared.texts.TheConstants.{TEXT_LIMIT};
ghost use Rattle.flux_library.specs.Signatures.{source_sig, plain_sig, uses};

use crate::answers::word;
use flux_values::{CellUse, Kind, List, Memory, Mode, Role, Sig};
use std::alloc::Global;

/// A source, by its role and what it gives.
pub fn source(alloc: Global, role: Role, outs: &[Kind]) -> Result<Sig, Memory>
    ensures { IfOk result (λ sig. sig ≡ source_sig role outs.now) }
{
    Ok(Sig {
        ins: List::new(alloc),
        outs: kinds(alloc, outs)?,
        cells: List::new(alloc),
        role,
    })
}

/// An inner node, by what it takes and gives, and the cells that it uses.
pub fn plain(
    alloc: Global,
    ins: &[Kind],
    outs: &[Kind],
    cells: List<CellUse>,
) -> Result<Sig, Memory>
    ensures { IfOk result (λ sig. sig ≡ plain_sig ins.now outs.now cells) }
{
    Ok(Sig {
        ins: kinds(alloc, ins)?,
        outs: kinds(alloc, outs)?,
        cells,
        role: Role::Plain,
    })
}

/// Kinds as a list.
pub fn kinds(alloc: Global, kinds: &[Kind]) -> Result<List<Kind>, Memory>
    ensures { IfOk result (λ copied. copied ≡ kinds.now) }
{
    let mut copied = List::new(alloc);
    for kind in kinds {
        copied.add(*kind)?;
    }
    Ok(copied)
}

/// The use of one cell.
pub fn cell(alloc: Global, name: &[u8], mode: Mode) -> Result<List<CellUse>, Memory>
    requires { length name.now ≤ TEXT_LIMIT }
    ensures { IfOk result (λ cells. cells ≡ uses name.now mode) }
{
    let mut cells = List::new(alloc);
    let name = word(alloc, name)?;
    cells.add(CellUse { name, mode })?;
    Ok(cells)
}
