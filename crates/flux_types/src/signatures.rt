//! The signatures of nodes: what concrete nodes' lines write, and what abstract nodes have of their
//! members.

ghost use Rattle.std.specs.Prelude.{◌≡◌, ◌≤◌, ◌++◌, IfOk, OnOk, fold, replicate, length, slice_set};
ghost use Rattle.flux_model.specs.Kinds.{sig_at};
ghost use Rattle.flux_types.specs.Signatures.{type_of, types_of, nothing, last_of, case_sig, cases_sig};
ghost use Rattle.flux_types.specs.steps.Filling.{put_line, put_lines, put_node};

use crate::words::{ins_of, outs_of};
use flux_library::Library;
use flux_model::{Body, Case, Node, NodeNo, NodeSig, TypeText};
use flux_syntax::{Decl, Names, Param};
use flux_values::{List, Memory, TextBytes, TextFault};
use std::alloc::Global;

/// Adds a parameter's type, where the library has it.
fn add_type<L: Library>(
    alloc: Global,
    library: &L,
    param: &Param,
    types: &mut List<TypeText>,
) -> Result<(), Memory>
    ensures { OnOk result
        (types.new ≡ types.old ++ type_of (L.meaning library.now).kind param.now) }
{
    let spelling = param.spelling(alloc)?;
    let Some(kind) = library.kind(spelling.as_bytes()) else {
        return Ok(());
    };
    let words = match TextBytes::copy(alloc, spelling.as_bytes()) {
        Ok(words) => words,
        Err(TextFault::TooLong) => unreachable!(),
        Err(TextFault::Memory) => return Err(Memory),
    };
    types.add(TypeText { words, kind })
}

fn types_of<L: Library>(
    alloc: Global,
    library: &L,
    params: &[Param],
) -> Result<List<TypeText>, Memory>
    ensures { IfOk result (λ types. types ≡ types_of (L.meaning library.now).kind params.now) }
{
    let mut types = List::new(alloc);
    let mut rest = params;
    while let [param, others @ ..] = rest {
        add_type(alloc, library, param, &mut types)?;
        rest = others;
    }
    Ok(types)
}

fn nothing(alloc: Global) -> NodeSig
    ensures { result ≡ nothing }
{
    NodeSig {
        ins: List::new(alloc),
        outs: List::new(alloc),
    }
}

/// So many nodes that take and give nothing.
fn blank(alloc: Global, count: usize) -> Result<List<NodeSig>, Memory>
    ensures { IfOk result (λ sigs. sigs ≡ replicate count nothing) }
{
    let mut sigs = List::new(alloc);
    for _ in 0..count {
        sigs.add(nothing(alloc))?;
    }
    Ok(sigs)
}

/// Puts what a signature line writes into its node's place.
fn put_line<L: Library>(
    alloc: Global,
    library: &L,
    names: &Names,
    decl: &Decl,
    sigs: &mut List<NodeSig>,
) -> Result<(), Memory>
    ensures { OnOk result
        (sigs.new ≡ put_line (L.meaning library.now).kind names.now decl.now sigs.old) }
{
    let Decl::Signature { name, ins, outs } = decl else {
        return Ok(());
    };
    let sig = NodeSig {
        ins: types_of(alloc, library, ins.as_slice())?,
        outs: types_of(alloc, library, outs.as_slice())?,
    };
    put(sigs, names.place(name.text.as_bytes()), sig);
    Ok(())
}

/// Puts a signature into a place, if there is one.
fn put(sigs: &mut List<NodeSig>, place: usize, sig: NodeSig)
    ensures { sigs.new ≡ slice_set sigs.old place sig }
{
    if place < sigs.len() {
        sigs.set(place, sig);
    }
}

/// What signature lines write, for each node; of two lines of one node the first counts.
fn lines<L: Library>(
    alloc: Global,
    library: &L,
    names: &Names,
    decls: &[Decl],
) -> Result<List<NodeSig>, Memory>
    ensures { IfOk result (λ sigs. sigs ≡ put_lines (L.meaning library.now).kind names.now decls.now
        (replicate (length names.now) nothing)) }
{
    let mut sigs = blank(alloc, names.len())?;
    let mut rest = decls;
    while let Some((decl, others)) = rest.split_last() {
        put_line(alloc, library, names, decl, &mut sigs)?;
        rest = others;
    }
    Ok(sigs)
}

fn copy_types(alloc: Global, types: &[TypeText]) -> Result<List<TypeText>, Memory>
    ensures { IfOk result (λ copied. copied ≡ types.now) }
{
    let mut copied = List::new(alloc);
    for ty in types {
        copied.add(TypeText {
            words: ty.words.again(alloc)?,
            kind: ty.kind,
        })?;
    }
    Ok(copied)
}

fn last_of(first: NodeNo, others: &[NodeNo]) -> NodeNo
    ensures { result ≡ last_of first others.now }
{
    match others.last() {
        Some(last) => *last,
        None => first,
    }
}

/// What the first case has that isn't empty.
fn cases_sig(alloc: Global, sigs: &[NodeSig], cases: &[Case]) -> Result<NodeSig, Memory>
    ensures { IfOk result (λ sig. sig ≡ cases_sig (sig_at sigs.now) cases.now) }
{
    let mut rest = cases;
    while let [case, others @ ..] = rest {
        if let [first, members @ ..] = case.members.as_slice() {
            let last = last_of(*first, members);
            return Ok(NodeSig {
                ins: copy_types(alloc, ins_of(sigs, first.0 as usize))?,
                outs: copy_types(alloc, outs_of(sigs, last.0 as usize))?,
            });
        }
        rest = others;
    }
    Ok(nothing(alloc))
}

/// Puts an abstract node's signature into its place, once its members have theirs.
fn put_node(
    alloc: Global,
    nodes: &[Node],
    sigs: &mut List<NodeSig>,
    number: NodeNo,
) -> Result<(), Memory>
    ensures { OnOk result (sigs.new ≡ put_node nodes.now sigs.old number) }
{
    let Some(node) = nodes.get(number.0 as usize) else {
        return Ok(());
    };
    let Body::Abstract(cases) = &node.body else {
        return Ok(());
    };
    let sig = cases_sig(alloc, sigs.as_slice(), cases.as_slice())?;
    put(sigs, number.0 as usize, sig);
    Ok(())
}

/// The signatures of all nodes, in an order in which each is after all that it leads to.
pub fn fill<L: Library>(
    alloc: Global,
    library: &L,
    names: &Names,
    decls: &[Decl],
    nodes: &[Node],
    order: &[NodeNo],
) -> Result<List<NodeSig>, Memory>
    ensures { IfOk result (λ sigs. sigs ≡ fold (put_node nodes.now)
        (put_lines (L.meaning library.now).kind names.now decls.now
        (replicate (length names.now) nothing)) order.now) }
{
    let mut sigs = lines(alloc, library, names, decls)?;
    for number in order {
        put_node(alloc, nodes, &mut sigs, *number)?;
    }
    Ok(sigs)
}
