//! The segments of nodes.

ghost use Rattle.std.specs.Prelude.{◌≡◌, ℕ, ◌≤◌, ◌++◌, length, map, reverse, IfOk, OnOk};
ghost use Rattle.std.specs.List.{AllByRecursion};
ghost use Rattle.flux_model.specs.Numbered.{parts_of};
ghost use Rattle.flux_hoist.specs.Sets.{held_by};
ghost use Rattle.flux_compile.specs.steps.Segments.{taking, dropping, handling_code, segment_of, segment_for, segments_of, origins_of};

use crate::bodies::add_body;
use crate::copies::copy_arms;
use flux_constraints::ClassSet;
use flux_model::{COUNT_LIMIT, HandleArm, Hold, Node, SourceLine, Visits};
use flux_plan::{Instr, Segment};
use flux_values::{List, Memory};
use std::alloc::Global;

fn add_takes(code: &mut List<Instr>, holds: &[Hold]) -> Result<(), Memory>
    ensures { OnOk result (code.new ≡ code.old ++ map taking holds.now) }
{
    for hold in holds {
        code.add(Instr::Take(hold.class, hold.mode))?;
    }
    Ok(())
}

/// Drops what was taken, the last class first.
fn add_drops(code: &mut List<Instr>, holds: &[Hold]) -> Result<(), Memory>
    ensures { OnOk result (code.new ≡ code.old ++ map dropping (reverse holds.now)) }
{
    for hold in holds.iter().rev() {
        code.add(Instr::Drop(hold.class))?;
    }
    Ok(())
}

fn add_handlers(alloc: Global, code: &mut List<Instr>, arms: &[HandleArm]) -> Result<(), Memory>
    ensures { OnOk result (code.new ≡ code.old ++ handling_code arms.now) }
{
    if arms.is_empty() {
        return Ok(());
    }
    code.add(Instr::Handle(copy_arms(alloc, arms)?))?;
    code.add(Instr::EndHandle)
}

fn segment_of(alloc: Global, holds: &[Hold], node: &Node) -> Result<Segment, Memory>
    requires few { length holds.now ≤ COUNT_LIMIT }
    requires parts { parts_of node.now.body ≤ COUNT_LIMIT }
    ensures { IfOk result (λ segment. segment ≡ segment_of holds.now node.now) }
{
    let mut code = List::new(alloc);
    add_takes(&mut code, holds)?;
    code.add(Instr::Enter)?;
    add_body(alloc, &mut code, &node.body)?;
    let exit = code.len() as u32;
    code.add(Instr::Exit)?;
    add_drops(&mut code, holds)?;
    add_handlers(alloc, &mut code, node.on_fail.as_slice())?;
    code.add(Instr::Return)?;
    Ok(Segment { code, exit })
}

/// The holds of the set at a number, and none where there is no such set.
fn holds_of(sets: &[ClassSet], number: usize) -> &[Hold]
    ensures { result.now ≡ held_by sets.now number }
{
    match sets.get(number) {
        Some(set) => set.as_slice(),
        None => &[],
    }
}

/// The segment of the node of a number. It is empty where items come from the node, since no flow comes there.
fn segment_for(
    alloc: Global,
    origins: &Visits,
    holds: &[Hold],
    number: u32,
    node: &Node,
) -> Result<Segment, Memory>
    requires few { length holds.now ≤ COUNT_LIMIT }
    requires parts { parts_of node.now.body ≤ COUNT_LIMIT }
    ensures { IfOk result (λ segment. segment ≡ segment_for origins.now holds.now number node.now) }
{
    if origins.has(number) {
        return Ok(Segment {
            code: List::new(alloc),
            exit: 0,
        });
    }
    segment_of(alloc, holds, node)
}

/// The nodes that items come from.
pub fn origins_of(alloc: Global, lines: &[SourceLine]) -> Result<Visits, Memory>
    ensures { IfOk result (λ origins. origins ≡ origins_of lines.now) }
{
    let mut origins = Visits::new(alloc);
    for line in lines {
        origins.add(line.node.0)?;
    }
    Ok(origins)
}

/// One segment for each node, given from which nodes items come, and what nodes hold.
pub fn segments_of(
    alloc: Global,
    origins: &Visits,
    sets: &[ClassSet],
    nodes: &[Node],
) -> Result<List<Segment>, Memory>
    requires short { length nodes.now ≤ COUNT_LIMIT }
    requires few { (number : ℕ) → length (held_by sets.now number) ≤ COUNT_LIMIT }
    requires parts { AllByRecursion (λ node. parts_of node.body ≤ COUNT_LIMIT) nodes.now }
    ensures { IfOk result
        (λ segments. segments ≡ segments_of origins.now sets.now nodes.now) }
{
    let mut segments = List::new(alloc);
    for (number, node) in nodes.iter().enumerate() {
        let holds = holds_of(sets, number);
        segments.add(segment_for(alloc, origins, holds, number as u32, node)?)?;
    }
    Ok(segments)
}
