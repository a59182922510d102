//! A text, from its bytes to a checked program.

ghost use Rattle.std.specs.Prelude.{◌≡◌, ◌≤◌, IfOk, IfErr, OnOk, None, map, length};
ghost use Rattle.flux_model.specs.Numbered.{IsNumbered};
ghost use Rattle.flux_model.specs.Ordering.{IsOrder, HasCycle};
ghost use Rattle.flux_model.specs.Texts.{node_name};
ghost use Rattle.flux_syntax.specs.Counted.{words_of};
ghost use Rattle.flux_faults.specs.declared.faults.StaticFault.{StaticFault};
ghost use Rattle.flux_faults.specs.declared.faults.CheckFault.TheVariants as causes;
ghost use Rattle.flux_check.specs.Judgement.{IsTextFault};
ghost use Rattle.flux_check.specs.Checked.{AreChecked, IsChecked, IsRefusalOf, IsSoundText, IsThatFault};
ghost use Rattle.flux_check.specs.steps.Checking.{IsDeclared, IsCycleRefusal, IsDeclsRefusal, site_of};

use crate::constraints::constraints;
use crate::sizing::sizes;
use flux_edges::{handler_types, session_edges};
use flux_faults::{CheckFault, FaultKind, StaticFault};
use flux_graph::{GraphFault, Order, order};
use flux_hoist::{Checked, hoist};
use flux_library::Library;
use flux_model::{COUNT_LIMIT, Named, NodeNo, Program};
use flux_names::resolve;
use flux_syntax::{Decl, read};
use flux_types::{sigs, source_types};
use flux_values::{List, Memory, TextBytes};
use std::alloc::Global;

/// The name of a node; empty where there is no such node.
fn node_name(alloc: Global, program: &Program, node: NodeNo) -> Result<TextBytes, Memory>
    ensures { IfOk result (λ name. name ≡ node_name program.now node) }
{
    match program.nodes.as_slice().get(node.0 as usize) {
        Some(node) => node.name.again(alloc),
        None => Ok(TextBytes::from_vec(Vec::new(alloc))),
    }
}

fn path_names(alloc: Global, program: &Program, path: &[NodeNo]) -> Result<List<TextBytes>, Memory>
    ensures { IfOk result (λ names. names ≡ map (node_name program.now) path.now) }
{
    let mut names = List::new(alloc);
    let mut rest = path;
    while let [node, others @ ..] = rest {
        if names.push(node_name(alloc, program, *node)?).is_err() {
            return Err(Memory);
        }
        rest = others;
    }
    Ok(names)
}

/// Where the first node of a path has its name.
fn site_of(sites: &[u32], path: &[NodeNo]) -> Option<u32>
    ensures { result ≡ site_of sites.now path.now }
{
    match path {
        [first, ..] => sites.get(first.0 as usize).copied(),
        [] => None,
    }
}

/// An order of the program's nodes, or fault 15.
fn ordered(alloc: Global, named: &Named) -> Result<Order, CheckFault>
    requires numbered { IsNumbered named.now.program }
    requires sites { length named.now.sites.nodes ≡ length named.now.program.nodes }
    ensures ordered { IfOk result (λ order. IsOrder named.now.program.nodes order.nodes) }
    ensures acyclic { IfOk result (λ order. HasCycle named.now.program.nodes → ⊥) }
    ensures fault { IfErr result (IsCycleRefusal named.now) }
{
    let path = match order(alloc, &named.program) {
        Ok(order) => return Ok(order),
        Err(GraphFault::Memory) => return Err(CheckFault::Memory),
        Err(GraphFault::Cycle { path }) => path,
    };
    let Some(at) = site_of(named.sites.nodes.as_slice(), path.as_slice()) else {
        unreachable!()
    };
    let Ok(names) = path_names(alloc, &named.program, path.as_slice()) else {
        return Err(CheckFault::Memory);
    };
    Err(CheckFault::Static(StaticFault {
        kind: FaultKind::Cycle,
        at,
        path: names,
    }))
}

/// A checked program of declarations, or their fault.
fn judge<L: Library>(alloc: Global, decls: &List<Decl>, library: &L) -> Result<Checked, CheckFault>
    requires declared { IsDeclared decls.now }
    requires few { words_of decls.now ≤ COUNT_LIMIT }
    ensures checked { IfOk result (λ checked. AreChecked (L.meaning library.now) decls.now
        checked.program checked.sigs.nodes checked.order.nodes checked.sets.nodes checked.sizes) }
    ensures fault { IfErr result (IsDeclsRefusal (L.meaning library.now) decls.now) }
{
    let named = resolve(alloc, decls, library)?;
    let order = ordered(alloc, &named)?;
    let sigs = sigs(alloc, decls, &named, &order, library)?;
    handler_types(alloc, &named, &sigs)?;
    source_types(alloc, decls, &named, &sigs, library)?;
    constraints(alloc, decls, library)?;
    session_edges(alloc, &named)?;
    let sets = hoist(alloc, &named.program, &order)?;
    let sizes = sizes(alloc, decls, &named, &order, &sets)?;
    Ok(Checked {
        program: named.program,
        sigs,
        order,
        sets,
        sizes,
    })
}

/// A text's program with what is found of it, or the text's fault.
pub fn check<L: Library>(alloc: Global, text: &[u8], library: &L) -> Result<Checked, CheckFault>
    // What is answered holds of the text,
    ensures checked { IfOk result (λ checked. IsChecked (L.meaning library.now) text.now
        checked.program checked.sigs.nodes checked.order.nodes checked.sets.nodes checked.sizes) }
    ensures fault { IfErr result (IsRefusalOf (L.meaning library.now) text.now) }
    // and what holds of the text is answered, unless memory is short.
    ensures sound { IsSoundText (L.meaning library.now) text.now
        → IfErr result (λ refusal. refusal ≡ causes.Memory) }
    ensures faulty { (fault : StaticFault) → IsTextFault (L.meaning library.now) text.now fault
        → IfOk result (λ _. ⊥) }
    ensures stands { (fault : StaticFault) → IsTextFault (L.meaning library.now) text.now fault
        → IfErr result (IsThatFault fault) }
{
    let decls = read(alloc, text)?;
    judge(alloc, &decls, library)
}
