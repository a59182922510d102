//! The plan: what each node takes, gives, holds and counts, and what each source starts.

ghost use Rattle.std.specs.Prelude.{◌≡◌, ◌<◌, ◌++◌, [], ◌∷◌, if◌then◌else◌, IfOk, OnOk, codes, length, map, slice_get};
ghost use Rattle.std.specs.List.{flat_map, range_with_len};
ghost use Rattle.flux_model.specs.Kinds.{sig_at};
ghost use Rattle.flux_hoist.specs.Counted.{counted_source, size_at};
ghost use Rattle.flux_hoist.specs.Plans.{is_source, listed_types, node_line, node_lines, node_part, printed_function, printed_holds, printed_plan, printed_sig, printed_size, printed_types, source_line, source_lines};
ghost use Rattle.flux_hoist.specs.Printed.{printed_hold};
ghost use Rattle.flux_hoist.specs.Sets.{held_by};
ghost use Rattle.flux_hoist.specs.steps.Sizing.{put_sizes};

use crate::checked::{Checked, SIZE_LIMIT};
use crate::hoisting::holds_of;
use crate::printing::{append_hold, node_name};
use crate::sizes::{size_of, sizes_along, source_size};
use flux_constraints::ClassSet;
use flux_library::Library;
use flux_model::{Body, Hold, Node, NodeNo, NodeSig, Program, SourceLine, TypeText};
use flux_spelling::append_number;
use flux_values::{Bytes, Memory, Role, TextBytes};
use std::alloc::Global;

fn append_other_types(out: &mut Bytes, types: &[TypeText]) -> Result<(), Memory>
    ensures { OnOk result (out.new ≡ out.old
        ++ flat_map (λ ty. codes ", " ++ ty.words) types.now) }
{
    for ty in types {
        out.append(b", ")?;
        out.append(ty.words.as_bytes())?;
    }
    Ok(())
}

fn append_type_list(out: &mut Bytes, types: &[TypeText]) -> Result<(), Memory>
    ensures { OnOk result (out.new ≡ out.old ++ listed_types types.now) }
{
    match types {
        [] => Ok(()),
        [ty, others @ ..] => {
            out.append(ty.words.as_bytes())?;
            append_other_types(out, others)
        }
    }
}

fn append_types(out: &mut Bytes, types: &[TypeText]) -> Result<(), Memory>
    ensures { OnOk result (out.new ≡ out.old ++ printed_types types.now) }
{
    out.append(b"(")?;
    append_type_list(out, types)?;
    out.append(b")")
}

/// What the node of a number takes.
fn ins_of(sigs: &[NodeSig], number: usize) -> &[TypeText]
    ensures { let sig = sig_at sigs.now number in result.now ≡ sig.ins }
{
    match sigs.get(number) {
        Some(sig) => sig.ins.as_slice(),
        None => &[],
    }
}

/// What the node of a number gives.
fn outs_of(sigs: &[NodeSig], number: usize) -> &[TypeText]
    ensures { let sig = sig_at sigs.now number in result.now ≡ sig.outs }
{
    match sigs.get(number) {
        Some(sig) => sig.outs.as_slice(),
        None => &[],
    }
}

fn append_sig(out: &mut Bytes, sigs: &[NodeSig], number: usize) -> Result<(), Memory>
    ensures { OnOk result (out.new ≡ out.old ++ printed_sig (sig_at sigs.now number)) }
{
    append_types(out, ins_of(sigs, number))?;
    out.append(b" => ")?;
    append_types(out, outs_of(sigs, number))
}

fn append_other_holds(out: &mut Bytes, p: &Program, holds: &[Hold]) -> Result<(), Memory>
    ensures { OnOk result (out.new ≡ out.old
        ++ flat_map (λ hold. codes " " ++ printed_hold p.now hold) holds.now) }
{
    for hold in holds {
        out.append(b" ")?;
        append_hold(out, p, *hold)?;
    }
    Ok(())
}

fn append_holds(out: &mut Bytes, p: &Program, holds: &[Hold]) -> Result<(), Memory>
    ensures { OnOk result (out.new ≡ out.old ++ printed_holds p.now holds.now) }
{
    match holds {
        [] => out.append(b"-"),
        [hold, others @ ..] => {
            append_hold(out, p, *hold)?;
            append_other_holds(out, p, others)
        }
    }
}

pub(crate) fn append_size(alloc: Global, out: &mut Bytes, size: u32) -> Result<(), Memory>
    ensures { OnOk result (out.new ≡ out.old ++ printed_size size) }
{
    if SIZE_LIMIT < size {
        out.append(b"large")
    } else {
        append_number(alloc, out, u64::from(size))
    }
}

/// What the lines of nodes are made of.
#[derive(Drop)]
struct Parts<'a> {
    program: &'a Program,
    sigs: &'a [NodeSig],
    sets: &'a [ClassSet],
    sizes: &'a [u32],
}

/// Adds the line of a node.
fn append_node(
    alloc: Global,
    out: &mut Bytes,
    parts: &Parts<'_>,
    number: usize,
    node: &Node,
) -> Result<(), Memory>
    ensures { let p = parts.now.program.now in let sig = sig_at parts.now.sigs.now number in
        let holds = held_by parts.now.sets.now number in
        let size = size_at parts.now.sizes.now number in
        OnOk result (out.new ≡ out.old ++ node_line p sig holds size node.now) }
{
    out.append(b"node ")?;
    out.append(node.name.as_bytes())?;
    out.append(b" ")?;
    append_sig(out, parts.sigs, number)?;
    out.append(b" locks ")?;
    append_holds(out, parts.program, holds_of(parts.sets, number))?;
    out.append(b" size ")?;
    append_size(alloc, out, size_of(parts.sizes, number))?;
    out.append(b"\n")
}

/// Whether a node's library node has a source role.
fn is_source<L: Library>(alloc: Global, library: &L, body: &Body) -> Result<bool, Memory>
    ensures { IfOk result (λ is. is ≡ is_source (L.meaning library.now) body.now) }
{
    let Body::Concrete(name) = body else {
        return Ok(false);
    };
    match library.node(alloc, name.as_bytes())? {
        Some(sig) => Ok(sig.role != Role::Plain),
        None => Ok(false),
    }
}

/// Adds a line for the node of a number, unless it is a source.
fn append_node_part<L: Library>(
    alloc: Global,
    out: &mut Bytes,
    parts: &Parts<'_>,
    library: &L,
    number: usize,
) -> Result<(), Memory>
    ensures { let p = parts.now.program.now in let sigs = parts.now.sigs.now in
        let locks = held_by parts.now.sets.now in let found = slice_get p.nodes number in
        let size = size_at parts.now.sizes.now in
        OnOk result (out.new ≡ out.old
        ++ node_part (L.meaning library.now) p sigs locks size number found) }
{
    let Some(node) = parts.program.nodes.get(number) else {
        return Ok(());
    };
    if is_source(alloc, library, &node.body)? {
        return Ok(());
    }
    append_node(alloc, out, parts, number, node)
}

/// Adds a line for each node that isn't a source.
fn append_nodes<L: Library>(
    alloc: Global,
    out: &mut Bytes,
    parts: &Parts<'_>,
    library: &L,
) -> Result<(), Memory>
    ensures { let p = parts.now.program.now in let sigs = parts.now.sigs.now in
        let locks = held_by parts.now.sets.now in let size = size_at parts.now.sizes.now in
        OnOk result (out.new ≡ out.old ++ node_lines (L.meaning library.now) p sigs locks size) }
{
    for number in 0..parts.program.nodes.len() {
        append_node_part(alloc, out, parts, library, number)?;
    }
    Ok(())
}

fn append_function(out: &mut Bytes, session: &Option<TextBytes>) -> Result<(), Memory>
    ensures { OnOk result (out.new ≡ out.old ++ printed_function session.now) }
{
    match session {
        None => out.append(b"-"),
        Some(function) => out.append(function.as_bytes()),
    }
}

/// Adds the line of a source.
fn append_source(
    alloc: Global,
    out: &mut Bytes,
    p: &Program,
    line: &SourceLine,
    size: u32,
) -> Result<(), Memory>
    ensures { OnOk result (out.new ≡ out.old ++ source_line p.now size line.now) }
{
    out.append(b"source ")?;
    out.append(node_name(p, line.node))?;
    out.append(b" => ")?;
    out.append(node_name(p, line.target))?;
    out.append(b" session ")?;
    append_function(out, &line.session)?;
    out.append(b" size ")?;
    append_number(alloc, out, u64::from(size))?;
    out.append(b"\n")
}

fn append_sources(
    alloc: Global,
    out: &mut Bytes,
    p: &Program,
    lines: &[SourceLine],
    sizes: &[u32],
) -> Result<(), Memory>
    ensures { OnOk result (out.new ≡ out.old
        ++ source_lines p.now (counted_source sizes.now) lines.now) }
{
    for line in lines {
        append_source(alloc, out, p, line, source_size(sizes, line))?;
    }
    Ok(())
}

/// The plan of a program, by the sizes that are found along an order.
pub(crate) fn plan_along<L: Library>(
    alloc: Global,
    p: &Program,
    sigs: &[NodeSig],
    order: &[NodeNo],
    sets: &[ClassSet],
    library: &L,
) -> Result<Bytes, Memory>
    ensures { let locks = held_by sets.now in
        let sizes = put_sizes locks p.now.nodes order.now in
        let nodes = node_lines (L.meaning library.now) p.now sigs.now locks (size_at sizes) in
        let sources = source_lines p.now (counted_source sizes) p.now.sources in
        IfOk result (λ text. text ≡ nodes ++ sources) }
{
    let sizes = sizes_along(alloc, p.nodes.as_slice(), sets, order)?;
    let parts = Parts {
        program: p,
        sigs,
        sets,
        sizes: sizes.as_slice(),
    };
    let mut out = Bytes::new(alloc);
    append_nodes(alloc, &mut out, &parts, library)?;
    append_sources(alloc, &mut out, p, p.sources.as_slice(), sizes.as_slice())?;
    Ok(out)
}

/// The plan of a checked program: a line for each node that isn't a source, and one for each source line.
pub fn print_plan<L: Library>(
    alloc: Global,
    checked: &Checked,
    library: &L,
) -> Result<Bytes, Memory>
    ensures { let p = checked.now.program in let sigs = checked.now.sigs.nodes in
        let locks = held_by checked.now.sets.nodes in
        IfOk result (λ text. text ≡ printed_plan (L.meaning library.now) p sigs locks) }
{
    plan_along(
        alloc,
        &checked.program,
        checked.sigs.nodes.as_slice(),
        checked.order.nodes.as_slice(),
        checked.sets.nodes.as_slice(),
        library,
    )
}
