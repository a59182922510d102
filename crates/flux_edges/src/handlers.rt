//! Handlers, which take what their nodes take.

ghost use Rattle.std.specs.Prelude.{◌≡◌, ◌++◌, None, IfOk, IfErr, OnOk, map, [], Some};
ghost use Rattle.flux_model.specs.Kinds.{sig_at};
ghost use Rattle.flux_faults.specs.declared.faults.FaultKind.TheVariants.{HandlerTypes};
ghost use Rattle.flux_syntax.specs.Least.{fault_or, IsLeastFault};
ghost use Rattle.flux_edges.specs.Places.{least_of};
ghost use Rattle.flux_edges.specs.Handlers.{arm_of, arms_from, is_like, unlike_handlers};
ghost use Rattle.flux_edges.specs.steps.Marking.{arms_along};

use crate::places::{Place, fault, unless};
use flux_faults::{CheckFault, FaultKind};
use flux_model::{HandleArm, Named, Node, NodeSig, Sigs, TypeText, same_types};
use flux_values::{List, Memory};
use std::alloc::Global;

/// A handler of a node, both by their places among the nodes.
#[derive(Clone, Copy, Drop)]
struct Arm {
    node: usize,
    handler: usize,
}

fn add_arms(number: usize, on_fail: &[HandleArm], arms: &mut List<Arm>) -> Result<(), Memory>
    ensures { OnOk result (arms.new ≡ arms.old ++ map (arm_of number) on_fail.now) }
{
    let mut rest = on_fail;
    while let [arm, others @ ..] = rest {
        arms.add(Arm {
            node: number,
            handler: arm.node.0 as usize,
        })?;
        rest = others;
    }
    Ok(())
}

/// The arms of all nodes, node by node.
fn arms_of(alloc: Global, nodes: &[Node]) -> Result<List<Arm>, Memory>
    ensures { IfOk result (λ arms. arms ≡ arms_from 0 nodes.now) }
{
    let mut arms = List::new(alloc);
    let mut number = 0;
    let mut rest = nodes;
    while let [node, others @ ..] = rest {
        add_arms(number, node.on_fail.as_slice(), &mut arms)?;
        number += 1;
        rest = others;
    }
    Ok(arms)
}

/// What a node takes; nothing where it has no signature.
fn ins_of(sigs: &[NodeSig], node: usize) -> &[TypeText]
    ensures { let sig = sig_at sigs.now node in result.now ≡ sig.ins }
{
    match sigs.get(node) {
        Some(sig) => sig.ins.as_slice(),
        None => &[],
    }
}

fn is_like(sigs: &[NodeSig], arm: Arm) -> bool
    ensures { result ≡ is_like (sig_at sigs.now) arm }
{
    same_types(ins_of(sigs, arm.node), ins_of(sigs, arm.handler))
}

/// Where the first handler is that doesn't take what its node takes. Each arm has its place.
fn arms_along(sigs: &[NodeSig], arms: &[Arm], sites: &[u32]) -> Place
    ensures { result ≡ arms_along (sig_at sigs.now) None arms.now sites.now }
{
    let mut place = None;
    let mut rest = arms;
    let mut left = sites;
    while let [arm, others @ ..] = rest {
        let [at, more @ ..] = left else {
            return place;
        };
        place = unless(is_like(sigs, *arm), *at, place);
        rest = others;
        left = more;
    }
    place
}

/// Fault 21, where a handler doesn't take what its node takes: at the first such handler in the
/// text.
pub fn handler_types(alloc: Global, named: &Named, sigs: &Sigs) -> Result<(), CheckFault>
    ensures fits { OnOk result
        (least_of None (unlike_handlers (sig_at sigs.now.nodes) named.now) ≡ None) }
    ensures fault { IfErr result (IsLeastFault (fault_or HandlerTypes
        (least_of None (unlike_handlers (sig_at sigs.now.nodes) named.now)) None)) }
{
    let arms = arms_of(alloc, named.program.nodes.as_slice())?;
    let sites = named.sites.handlers.as_slice();
    let place = arms_along(sigs.nodes.as_slice(), arms.as_slice(), sites);
    fault(alloc, FaultKind::HandlerTypes, place)
}
