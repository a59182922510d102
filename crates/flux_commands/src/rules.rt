//! The sources of a checked program, as the reader of items wants them.

ghost use Rattle.std.specs.Prelude.{◌≡◌, IfOk, slice_get};
ghost use Rattle.flux_model.specs.Kinds.{kinds_at, kinds_of};
ghost use Rattle.flux_model.specs.Texts.{name_in};
ghost use Rattle.flux_hoist.specs.Sets.{held_by};
ghost use Rattle.flux_commands.specs.Items.{rules_of};
ghost use Rattle.flux_commands.specs.steps.Running.{HasSources, outs_at};

use flux_hoist::Checked;
use flux_items::ItemRules;
use flux_model::{Node, NodeNo, NodeSig};
use flux_values::{Kind, List, Memory, TextBytes};
use std::alloc::Global;

/// The name of a source.
fn name_of(alloc: Global, nodes: &[Node], node: NodeNo) -> Result<TextBytes, Memory>
    ensures { IfOk result (λ name. name ≡ name_in (slice_get nodes.now node.0)) }
{
    match nodes.get(node.0 as usize) {
        Some(node) => node.name.again(alloc),
        None => Ok(TextBytes::from_vec(Vec::new(alloc))),
    }
}

/// The kinds of what a signature gives.
fn outs_of(alloc: Global, sig: &NodeSig) -> Result<List<Kind>, Memory>
    ensures { IfOk result (λ kinds. kinds ≡ kinds_of sig.now.outs) }
{
    let mut kinds = List::new(alloc);
    for ty in sig.outs.as_slice() {
        kinds.add(ty.kind)?;
    }
    Ok(kinds)
}

/// The kinds of what a source gives.
fn kinds_of(alloc: Global, sigs: &[NodeSig], node: NodeNo) -> Result<List<Kind>, Memory>
    ensures { IfOk result (λ kinds. kinds ≡ outs_at sigs.now node) }
{
    match sigs.get(node.0 as usize) {
        Some(sig) => outs_of(alloc, sig),
        None => Ok(List::new(alloc)),
    }
}

fn copy_sizes(alloc: Global, sizes: &[u32]) -> Result<List<u32>, Memory>
    ensures { IfOk result (λ copies. copies ≡ sizes.now) }
{
    let mut copies = List::new(alloc);
    for size in sizes {
        copies.add(*size)?;
    }
    Ok(copies)
}

/// The sources' names, kinds and sizes.
pub fn rules_for(alloc: Global, checked: &Checked) -> Result<ItemRules, Memory>
    requires { HasSources checked.now.program (held_by checked.now.sets.nodes) checked.now.sizes }
    ensures { IfOk result (λ rules. rules ≡ rules_of checked.now.program
        (kinds_at checked.now.sigs.nodes) (held_by checked.now.sets.nodes)) }
{
    let mut names = List::new(alloc);
    let mut kinds = List::new(alloc);
    for line in checked.program.sources.as_slice() {
        names.add(name_of(alloc, checked.program.nodes.as_slice(), line.node)?)?;
        kinds.add(kinds_of(alloc, checked.sigs.nodes.as_slice(), line.node)?)?;
    }
    let sizes = copy_sizes(alloc, checked.sizes.as_slice())?;
    Ok(ItemRules {
        names,
        kinds,
        sizes,
    })
}
