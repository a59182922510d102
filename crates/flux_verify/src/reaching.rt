//! What segments lead to, and what they take.

ghost use Rattle.std.specs.Prelude.{◌≡◌, ◌++◌, slice_get, IfOk, OnOk};
ghost use Rattle.std.specs.List.{flat_map};
ghost use Rattle.flux_model.specs.Leading.{handlers_of};
ghost use Rattle.flux_plan.specs.Leading.{led_by, leads_from, taken_by, takes_of};
ghost use Rattle.flux_model.specs.Visits.{with_all};
ghost use Rattle.flux_verify.specs.steps.Visits.{IsReach, leads_at};

use flux_model::{HandleArm, Hold, NodeNo, Visits};
use flux_plan::{Instr, Segments};
use flux_values::{List, Memory};
use std::alloc::Global;

fn add_handlers(led: &mut List<NodeNo>, arms: &[HandleArm]) -> Result<(), Memory>
    ensures { OnOk result (led.new ≡ led.old ++ handlers_of arms.now) }
{
    for arm in arms {
        led.add(arm.node)?;
    }
    Ok(())
}

/// Adds the nodes that an instruction leads to.
pub fn add_led(led: &mut List<NodeNo>, instr: &Instr) -> Result<(), Memory>
    ensures { OnOk result (led.new ≡ led.old ++ led_by instr.now) }
{
    match instr {
        Instr::Go(node) => led.add(*node),
        Instr::Handle(arms) => add_handlers(led, arms.as_slice()),
        _ => Ok(()),
    }
}

/// What a node's segment leads to, and nothing where it has none.
pub fn leads_from(alloc: Global, segments: &Segments, node: u32) -> Result<List<NodeNo>, Memory>
    ensures { IfOk result (λ led. led ≡ leads_from segments.now node) }
{
    let mut led = List::new(alloc);
    if let Some(segment) = segments.get(NodeNo(node)) {
        for instr in segment.code.as_slice() {
            add_led(&mut led, instr)?;
        }
    }
    Ok(led)
}

/// What a node's segment takes, and nothing where it has none.
pub fn takes_of(alloc: Global, segments: &Segments, node: u32) -> Result<List<Hold>, Memory>
    ensures { IfOk result (λ takes. takes ≡ takes_of segments.now node) }
{
    let mut takes = List::new(alloc);
    if let Some(segment) = segments.get(NodeNo(node)) {
        for instr in segment.code.as_slice() {
            if let Instr::Take(class, mode) = instr {
                takes.add(Hold {
                    class: *class,
                    mode: *mode,
                })?;
            }
        }
    }
    Ok(takes)
}

/// Visits the handlers of arms.
fn visit_handlers(visits: &mut Visits, arms: &[HandleArm]) -> Result<(), Memory>
    ensures { OnOk result (visits.new ≡ with_all visits.old (handlers_of arms.now)) }
{
    for arm in arms {
        visits.add(arm.node.0)?;
    }
    Ok(())
}

/// Visits what an instruction leads to.
fn visit_led(visits: &mut Visits, instr: &Instr) -> Result<(), Memory>
    ensures { OnOk result (visits.new ≡ with_all visits.old (led_by instr.now)) }
{
    match instr {
        Instr::Go(node) => visits.add(node.0),
        Instr::Handle(arms) => visit_handlers(visits, arms.as_slice()),
        _ => Ok(()),
    }
}

/// Visits what code leads to.
fn visit_code(visits: &mut Visits, code: &[Instr]) -> Result<(), Memory>
    ensures { OnOk result (visits.new ≡ with_all visits.old (flat_map led_by code.now)) }
{
    for instr in code {
        visit_led(visits, instr)?;
    }
    Ok(())
}

/// Visits what the node at a place of the visits leads to.
fn visit_from(segments: &Segments, visits: &mut Visits, place: usize) -> Result<(), Memory>
    ensures { OnOk result
        (visits.new ≡ with_all visits.old (leads_at segments.now (slice_get visits.old place))) }
{
    let Some(number) = visits.get(place) else {
        return Ok(());
    };
    match segments.get(NodeNo(number)) {
        Some(segment) => visit_code(visits, segment.code.as_slice()),
        None => Ok(()),
    }
}

/// All that is reached from some nodes, themselves included.
pub fn reach(alloc: Global, segments: &Segments, starts: &[NodeNo]) -> Result<Visits, Memory>
    ensures { IfOk result (IsReach segments.now starts.now) }
{
    let mut visits = Visits::new(alloc);
    visits.add_all(starts)?;
    let mut place = 0;
    while place < visits.len() {
        visit_from(segments, &mut visits, place)?;
        place += 1;
    }
    Ok(visits)
}
