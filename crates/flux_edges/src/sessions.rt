//! Sessions, which sources need that lead to a session constraint.

ghost use Rattle.std.specs.Prelude.{◌≡◌, ℕ, ◌||◌, None, Some, true, false, IfOk, IfErr, OnOk, fold, replicate, length, slice_set};
ghost use Rattle.std.specs.List.{list_any, AllByRecursion};
ghost use Rattle.flux_model.specs.Numbered.{IsNumbered};
ghost use Rattle.flux_model.specs.Ordering.{IsOrder, HasCycle};
ghost use Rattle.flux_model.specs.Leading.{leads_to};
ghost use Rattle.flux_model.specs.Soundness.{HasSession};
ghost use Rattle.flux_faults.specs.declared.faults.FaultKind.TheVariants.{NoSession};
ghost use Rattle.flux_syntax.specs.Least.{fault_or, IsLeastFault};
ghost use Rattle.flux_edges.specs.Places.{least_of};
ghost use Rattle.flux_edges.specs.Sessions.{is_session_class, is_session, needs_by, needs_session};
ghost use Rattle.flux_edges.specs.Unserved.{IsNeeded, is_served, unserved_sources};
ghost use Rattle.flux_edges.specs.steps.Marking.{mark_at, put_mark, lines_along};

use crate::places::{Place, fault, unless};
use flux_faults::{CheckFault, FaultKind};
use flux_graph::{GraphFault, order};
use flux_model::{Class, Hold, Named, Node, NodeNo, Program, SourceLine};
use flux_values::{List, Memory};
use std::alloc::Global;

fn is_session(classes: &[Class], hold: &Hold) -> bool
    ensures { result ≡ is_session classes.now hold.now }
{
    match classes.get(hold.class.0 as usize) {
        Some(class) => class.session,
        None => false,
    }
}

fn declares_session(classes: &[Class], holds: &[Hold]) -> bool
    ensures { result ≡ list_any (is_session classes.now) holds.now }
{
    let mut rest = holds;
    while let [hold, others @ ..] = rest {
        if is_session(classes, hold) {
            return true;
        }
        rest = others;
    }
    false
}

fn mark_at(marks: &[bool], number: usize) -> bool
    ensures { result ≡ mark_at marks.now number }
{
    match marks.get(number) {
        Some(mark) => *mark,
        None => false,
    }
}

fn leads_to_marked(marks: &[bool], led: &[NodeNo]) -> bool
    ensures { result ≡ list_any (λ next. mark_at marks.now next.0) led.now }
{
    let mut rest = led;
    while let [next, others @ ..] = rest {
        if mark_at(marks, next.0 as usize) {
            return true;
        }
        rest = others;
    }
    false
}

fn needs_session(
    alloc: Global,
    classes: &[Class],
    marks: &[bool],
    node: &Node,
) -> Result<bool, Memory>
    ensures { IfOk result (λ needs. needs ≡ (list_any (is_session classes.now) node.now.declared
        || list_any (λ led. mark_at marks.now led.0) (leads_to node.now))) }
{
    let led = node.leads_to(alloc)?;
    let own = declares_session(classes, node.declared.as_slice());
    Ok(own || leads_to_marked(marks, led.as_slice()))
}

/// Marks a node that needs a session, once the nodes that it leads to have their marks.
fn put_mark(
    alloc: Global,
    p: &Program,
    marks: &mut List<bool>,
    number: NodeNo,
) -> Result<(), Memory>
    ensures { OnOk result
        (marks.new ≡ put_mark p.now.classes p.now.nodes marks.old number) }
{
    let Some(node) = p.nodes.get(number.0 as usize) else {
        return Ok(());
    };
    let needs = needs_session(alloc, p.classes.as_slice(), marks.as_slice(), node)?;
    put(marks, number.0 as usize, needs);
    Ok(())
}

/// Puts a mark into a place, if there is one.
fn put(marks: &mut List<bool>, place: usize, mark: bool)
    ensures { marks.new ≡ slice_set marks.old place mark }
{
    if place < marks.len() {
        marks.set(place, mark);
    }
}

fn blank(alloc: Global, count: usize) -> Result<List<bool>, Memory>
    ensures { IfOk result (λ marks. marks ≡ replicate count false) }
{
    let mut marks = List::new(alloc);
    for _ in 0..count {
        marks.add(false)?;
    }
    Ok(marks)
}

/// Which nodes need a session, in an order in which each is after all that it leads to.
fn marked(alloc: Global, p: &Program, order: &[NodeNo]) -> Result<List<bool>, Memory>
    ensures { IfOk result (λ marks. marks ≡ fold (put_mark p.now.classes p.now.nodes)
        (replicate (length p.now.nodes) false) order.now) }
{
    let mut marks = blank(alloc, p.nodes.len())?;
    for number in order {
        put_mark(alloc, p, &mut marks, *number)?;
    }
    Ok(marks)
}

fn is_served(marks: &[bool], line: &SourceLine) -> bool
    ensures { result ≡ is_served (mark_at marks.now) line.now }
{
    line.session.is_some() || !mark_at(marks, line.target.0 as usize)
}

/// Where the first source is that needs a session and has none. Each source line has its place.
fn lines_along(marks: &[bool], lines: &[SourceLine], sites: &[u32]) -> Place
    ensures { result ≡ lines_along (mark_at marks.now) None lines.now sites.now }
{
    let mut place = None;
    let mut rest = lines;
    let mut left = sites;
    while let [line, others @ ..] = rest {
        let [at, more @ ..] = left else {
            return place;
        };
        place = unless(is_served(marks, line), *at, place);
        rest = others;
        left = more;
    }
    place
}

/// Which nodes of a program without a cycle need a session.
fn needing(alloc: Global, p: &Program) -> Result<List<bool>, Memory>
    requires numbered { IsNumbered p.now }
    requires acyclic { HasCycle p.now.nodes → ⊥ }
    ensures { IfOk result (λ marks. (mark_at marks ≡ needs_session p.now)
        × ((node : ℕ) → IsNeeded p.now node → needs_session p.now node ≡ true)) }
{
    match order(alloc, p) {
        Ok(order) => marked(alloc, p, order.nodes.as_slice()),
        Err(GraphFault::Memory) => Err(Memory),
        Err(GraphFault::Cycle { .. }) => unreachable!(),
    }
}

/// Fault 26, where a source without a session function leads, by its target and on, to a node with
/// a session constraint: at the first such source's name in the text.
pub fn session_edges(alloc: Global, named: &Named) -> Result<(), CheckFault>
    requires numbered { IsNumbered named.now.program }
    requires acyclic { HasCycle named.now.program.nodes → ⊥ }
    requires sites { length named.now.sites.sources ≡ length named.now.program.sources }
    ensures fits { OnOk result (least_of None (unserved_sources named.now) ≡ None) }
    ensures served { OnOk result
        (AllByRecursion (HasSession named.now.program) named.now.program.sources) }
    ensures fault { IfErr result (IsLeastFault (fault_or NoSession
        (least_of None (unserved_sources named.now)) None)) }
{
    let marks = needing(alloc, &named.program)?;
    let lines = named.program.sources.as_slice();
    let place = lines_along(marks.as_slice(), lines, named.sites.sources.as_slice());
    fault(alloc, FaultKind::NoSession, place)
}
