//! The faulty places of one node's segment.

ghost use Rattle.std.specs.Prelude.{◌≡◌, ◌<◌, ◌^◌, ◌↔◌, length, slice_get, Some, IfOk, IsTrue};
ghost use Rattle.std.specs.List.{list_any};
ghost use Rattle.flux_plan.specs.Leading.{IsOnCycle};
ghost use Rattle.flux_plan.specs.Faulty.{IsMisshapen, IsFault};
ghost use Rattle.flux_verify.specs.steps.Checks as checks;
ghost use Rattle.flux_verify.specs.steps.Orders.{AreClosed, OpenAlike};
ghost use Rattle.flux_verify.specs.steps.Checks.{IsOpenTo, HasAstray, IsAstray, AreOffCycles, IsMisled, IsMisledAt, IsFirstPlace};

use crate::orders::Known;
use crate::reaching::{add_led, leads_from, reach, takes_of};
use crate::shapes::{Reading, read_more};
use crate::takes::lacks;
use flux_model::{Hold, NodeNo, Visits};
use flux_plan::{Instr, Segment, Segments};
use flux_values::{List, Memory};
use std::alloc::Global;

/// Whether takes lack what an instruction takes.
fn lacks_in(takes: &[Hold], instr: &Instr) -> bool
    ensures { result ≡ checks.lacks_in takes.now instr.now }
{
    match instr {
        Instr::Take(class, mode) => {
            let hold = Hold {
                class: *class,
                mode: *mode,
            };
            lacks(takes, hold)
        }
        _ => false,
    }
}

fn lacks_one(takes: &[Hold], code: &[Instr]) -> bool
    ensures { result ≡ list_any (checks.lacks_in takes.now) code.now }
{
    code.iter().any(|instr| lacks_in(takes, instr))
}

/// Whether takes lack what a node takes.
fn lacks_from(segments: &Segments, takes: &[Hold], node: u32) -> bool
    ensures { result ≡ checks.lacks_from segments.now takes.now node }
{
    match segments.get(NodeNo(node)) {
        Some(segment) => lacks_one(takes, segment.code.as_slice()),
        None => false,
    }
}

/// Whether takes lack what a node takes, if there is one.
fn lacks_at(segments: &Segments, takes: &[Hold], node: Option<u32>) -> bool
    ensures { result ≡ checks.lacks_at segments.now takes.now node }
{
    match node {
        Some(node) => lacks_from(segments, takes, node),
        None => false,
    }
}

/// Whether takes lack what some of these nodes take.
fn lacks_among(segments: &Segments, takes: &[Hold], nodes: &Visits) -> bool
    ensures { result ≡ list_any (checks.lacks_from segments.now takes.now) nodes.now }
{
    for place in 0..nodes.len() {
        if lacks_at(segments, takes, nodes.get(place)) {
            return true;
        }
    }
    false
}

/// Whether takes aren't closed at a node.
fn is_open(
    alloc: Global,
    segments: &Segments,
    takes: &[Hold],
    inner: NodeNo,
) -> Result<bool, Memory>
    ensures { IfOk result (λ is. IsTrue is ↔ IsOpenTo segments.now takes.now inner.0) }
{
    if takes.is_empty() {
        return Ok(false);
    }
    let reached = reach(alloc, segments, &[inner])?;
    Ok(lacks_among(segments, takes, &reached))
}

/// Whether a node is on a cycle, where it is known of some nodes that they aren't.
fn is_on_cycle(
    alloc: Global,
    segments: &Segments,
    straight: &Visits,
    node: u32,
) -> Result<bool, Memory>
    requires { AreOffCycles segments.now straight.now }
    ensures { IfOk result (λ is. IsTrue is ↔ IsOnCycle segments.now node) }
{
    if straight.has(node) {
        return Ok(false);
    }
    let led = leads_from(alloc, segments, node)?;
    Ok(reach(alloc, segments, led.as_slice())?.has(node))
}

fn is_astray(
    alloc: Global,
    segments: &Segments,
    straight: &Visits,
    node: NodeNo,
) -> Result<bool, Memory>
    requires { AreOffCycles segments.now straight.now }
    ensures { IfOk result (λ is. IsTrue is ↔ IsAstray segments.now node.0) }
{
    if segments.get(node).is_none() {
        return Ok(true);
    }
    is_on_cycle(alloc, segments, straight, node.0)
}

/// Whether one of some nodes is none, or on a cycle.
fn has_astray(
    alloc: Global,
    segments: &Segments,
    straight: &Visits,
    nodes: &[NodeNo],
) -> Result<bool, Memory>
    requires { AreOffCycles segments.now straight.now }
    ensures { IfOk result (λ is. IsTrue is ↔ HasAstray segments.now nodes.now) }
{
    let mut rest = nodes;
    while let [node, others @ ..] = rest {
        if is_astray(alloc, segments, straight, *node)? {
            return Ok(true);
        }
        rest = others;
    }
    Ok(false)
}

/// Whether an instruction leads to what is none or on a cycle, or goes where takes aren't closed.
fn is_misled(
    alloc: Global,
    segments: &Segments,
    straight: &Visits,
    takes: &[Hold],
    instr: &Instr,
) -> Result<bool, Memory>
    requires { AreOffCycles segments.now straight.now }
    ensures { IfOk result (λ is. IsTrue is ↔ IsMisled segments.now takes.now instr.now) }
{
    let mut led = List::new(alloc);
    add_led(&mut led, instr)?;
    if has_astray(alloc, segments, straight, led.as_slice())? {
        return Ok(true);
    }
    match instr {
        Instr::Go(inner) => is_open(alloc, segments, takes, *inner),
        _ => Ok(false),
    }
}

/// The first instruction of a segment that is misled, where its node has these takes.
fn misled_place(
    alloc: Global,
    segments: &Segments,
    straight: &Visits,
    takes: &[Hold],
    segment: &Segment,
) -> Result<Option<u32>, Memory>
    requires straight { AreOffCycles segments.now straight.now }
    requires few { length segment.now.code < 2 ^ 32 }
    ensures { IfOk result (IsFirstPlace (IsMisledAt segments.now takes.now segment.now)) }
{
    let mut place = 0;
    for instr in segment.code.as_slice() {
        if is_misled(alloc, segments, straight, takes, instr)? {
            return Ok(Some(place));
        }
        place += 1;
    }
    Ok(None)
}

/// The place where the shape of a segment can't go on.
fn misshapen_place(alloc: Global, segment: &Segment) -> Result<Option<u32>, Memory>
    requires { length segment.now.code < 2 ^ 32 }
    ensures { IfOk result (IsFirstPlace (IsMisshapen segment.now)) }
{
    let mut reading = Reading::Taking(List::new(alloc));
    let mut place = 0;
    for instr in segment.code.as_slice() {
        match read_more(reading, segment.exit, place, instr)? {
            Some(more) => reading = more,
            None => return Ok(Some(place)),
        }
        place += 1;
    }
    match reading {
        Reading::Whole => Ok(None),
        _ => Ok(Some(place)),
    }
}

fn earlier(first: Option<u32>, second: Option<u32>) -> Option<u32>
    ensures { result ≡ checks.earlier first second }
{
    match (first, second) {
        (Some(first), Some(second)) => Some(first.min(second)),
        (None, found) | (found, None) => found,
    }
}

/// Takes that are closed where those of a node are: its own, or none where it is known to be closed.
fn own_takes(
    alloc: Global,
    segments: &Segments,
    closed: &Visits,
    node: u32,
) -> Result<List<Hold>, Memory>
    requires { AreClosed segments.now closed.now }
    ensures { IfOk result (OpenAlike segments.now node) }
{
    if closed.has(node) {
        return Ok(List::new(alloc));
    }
    takes_of(alloc, segments, node)
}

/// The first faulty place in the segment of a node.
pub fn faulty_place(
    alloc: Global,
    segments: &Segments,
    known: &Known,
    node: u32,
    segment: &Segment,
) -> Result<Option<u32>, Memory>
    requires straight { AreOffCycles segments.now known.now.straight }
    requires closed { AreClosed segments.now known.now.closed }
    requires stands { slice_get segments.now node ≡ Some segment.now }
    requires few { length segment.now.code < 2 ^ 32 }
    ensures { IfOk result (IsFirstPlace (IsFault segments.now node segment.now)) }
{
    let takes = own_takes(alloc, segments, &known.closed, node)?;
    let misled = misled_place(alloc, segments, &known.straight, takes.as_slice(), segment)?;
    let misshapen = misshapen_place(alloc, segment)?;
    Ok(earlier(misled, misshapen))
}
