//! Whether the sizes of a program's sources are within the limit.

ghost use Rattle.std.specs.Prelude.{◌≡◌, ◌+◌, IfOk, IfErr, None, map};
ghost use Rattle.flux_model.specs.Ordering.{IsOrder};
ghost use Rattle.flux_syntax.specs.Least.{first_fault, IsLeastFault};
ghost use Rattle.flux_syntax.specs.ProgramOfText.{named_of};
ghost use Rattle.flux_hoist.specs.Sets.{held_by};
ghost use Rattle.flux_check.specs.Rows.{size_rows};
ghost use Rattle.flux_check.specs.steps.Summing.{large_along, line_size};
ghost use Rattle.flux_check.specs.steps.Checking.{AreSizes};

use flux_faults::{CheckFault, FaultKind};
use flux_graph::Order;
use flux_hoist::{SIZE_LIMIT, Sets, capped_sum, node_sizes, size_at};
use flux_model::{Named, SourceLine};
use flux_syntax::{Decl, fault_at, sooner};
use flux_values::{List, Memory};
use std::alloc::Global;

/// Goes along the declarations and the source lines; the least place at which the sum is past the limit.
fn past_limit(table: &[u32], decls: &[Decl], lines: &[SourceLine]) -> Option<u32>
    ensures { result ≡ large_along table.now 0 None decls.now lines.now }
{
    let mut place = None;
    let mut total = 0;
    let mut rest = decls;
    let mut left = lines;
    while let [decl, others @ ..] = rest {
        if let Decl::Source { name, .. } = decl {
            let [line, more @ ..] = left else {
                return place;
            };
            total = capped_sum(total, capped_sum(size_at(table, line.target), 1));
            if SIZE_LIMIT < total {
                place = Some(sooner(place, name.at));
            }
            left = more;
        }
        rest = others;
    }
    place
}

fn line_sizes(alloc: Global, table: &[u32], lines: &[SourceLine]) -> Result<List<u32>, Memory>
    ensures { IfOk result (λ sizes. sizes ≡ map (line_size table.now) lines.now) }
{
    let mut sizes = List::new(alloc);
    for line in lines {
        sizes.add(capped_sum(size_at(table, line.target), 1))?;
    }
    Ok(sizes)
}

/// The size of each source, or fault 27 where they sum to more than the limit. The program is that of the declarations,
/// the order lists each of its nodes after all that it leads to, and the sets are what its nodes hold.
pub fn sizes(
    alloc: Global,
    decls: &List<Decl>,
    named: &Named,
    order: &Order,
    sets: &Sets,
) -> Result<List<u32>, CheckFault>
    requires named { named.now ≡ named_of decls.now }
    requires ordered { IsOrder named.now.program.nodes order.now.nodes }
    ensures sizes { IfOk result (AreSizes (held_by sets.now.nodes) decls.now named.now.program) }
    ensures fault { IfErr result
        (IsLeastFault (first_fault (size_rows (held_by sets.now.nodes) decls.now))) }
{
    let lines = named.program.sources.as_slice();
    let table = node_sizes(alloc, &named.program, order, sets)?;
    match past_limit(table.as_slice(), decls.as_slice(), lines) {
        Some(at) => Err(fault_at(alloc, FaultKind::PlanTooLarge, at)),
        None => Ok(line_sizes(alloc, table.as_slice(), lines)?),
    }
}
