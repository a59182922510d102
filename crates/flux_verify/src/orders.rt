//! What one search in depth tells of nodes.

ghost use Rattle.std.specs.Prelude.{◌≡◌, ◌++◌, [], IfOk, OnOk};
ghost use Rattle.flux_model.specs.Visits.{IsKnown, with_number};
ghost use Rattle.flux_plan.specs.Leading.{leads_from};
ghost use Rattle.flux_verify.specs.steps.Checks.{AreOffCycles};
ghost use Rattle.flux_verify.specs.steps.Orders.{IsGround, AreClosed, AreKnown, IsNew, tasks_of, with_if};

use crate::reaching::{leads_from, takes_of};
use crate::takes::{add_takes, lacks_any};
use flux_model::{Hold, NodeNo, Visits};
use flux_plan::Segments;
use flux_values::{List, Memory};
use std::alloc::Global;

/// What is to be done with a node.
#[derive(Clone, Copy)]
enum Task {
    /// To settle it, after all that it leads to.
    Enter(NodeNo),
    Settle(NodeNo),
}

/// Nodes that are on no cycle, and some of them whose takes are closed at all that they lead to; and what the former
/// take. Each node came after all that it leads to.
#[derive(Drop)]
pub struct Known {
    pub straight: Visits,
    pub closed: Visits,
    pub taken: List<Hold>,
}

/// A search in depth.
#[derive(Drop)]
struct Search {
    entered: Visits,
    known: Known,
    tasks: List<Task>,
}

/// Adds a number, where a test holds.
fn add_if(visits: &mut Visits, number: u32, test: bool) -> Result<(), Memory>
    ensures { OnOk result (visits.new ≡ with_if test visits.old number) }
{
    if test { visits.add(number) } else { Ok(()) }
}

impl Known {
    fn new(alloc: Global) -> Known
        ensures straight { result.straight ≡ [] }
        ensures closed { result.closed ≡ [] }
        ensures taken { result.taken ≡ [] }
    {
        Known {
            straight: Visits::new(alloc),
            closed: Visits::new(alloc),
            taken: List::new(alloc),
        }
    }

    /// Settles a node, where all that it leads to is settled. Its takes are closed where they lack nothing that the nodes
    /// before take.
    fn settle(&mut self, alloc: Global, segments: &Segments, node: NodeNo) -> Result<(), Memory>
        requires { IsGround segments.now self.old.straight self.old.closed self.old.taken }
        ensures ground { OnOk result
            (IsGround segments.now self.new.straight self.new.closed self.new.taken) }
        ensures settled { AreKnown self.old.straight (leads_from segments.now node.0)
            → OnOk result (IsKnown node.0 self.new.straight) }
    {
        let led = leads_from(alloc, segments, node.0)?;
        if !self.straight.has_all(led.as_slice()) {
            return Ok(());
        }
        let takes = takes_of(alloc, segments, node.0)?;
        let lacking = lacks_any(takes.as_slice(), self.taken.as_slice());
        add_if(&mut self.closed, node.0, !lacking)?;
        add_takes(&mut self.taken, takes.as_slice())?;
        self.straight.add(node.0)?;
        Ok(())
    }
}

impl Search {
    /// Enters a node: what it leads to is to be settled, and then the node.
    fn enter(&mut self, alloc: Global, segments: &Segments, node: NodeNo) -> Result<(), Memory>
        ensures known { OnOk result (self.new.known ≡ self.old.known) }
        ensures entered { OnOk result (self.new.entered ≡ with_number self.old.entered node.0) }
        ensures tasks { OnOk result
            (self.new.tasks ≡ self.old.tasks ++ tasks_of segments.now node) }
    {
        self.entered.add(node.0)?;
        self.tasks.add(Task::Settle(node))?;
        for led in leads_from(alloc, segments, node.0)?.as_slice() {
            self.tasks.add(Task::Enter(*led))?;
        }
        Ok(())
    }

    /// The next node that is to be entered, and hasn't been. Nodes all of whose others are settled are settled on the way.
    fn next(&mut self, alloc: Global, segments: &Segments) -> Result<Option<NodeNo>, Memory>
        requires { let known = self.old.known in
            IsGround segments.now known.straight known.closed known.taken }
        ensures ground { let known = self.new.known in
            IfOk result (λ _. IsGround segments.now known.straight known.closed known.taken) }
        ensures entered { self.new.entered ≡ self.old.entered }
        ensures found { IfOk result (IsNew self.old.entered self.new.tasks) }
    {
        while let Some(task) = self.tasks.pop() {
            match task {
                Task::Settle(node) => self.known.settle(alloc, segments, node)?,
                Task::Enter(node) => {
                    if !self.entered.has(node.0) {
                        return Ok(Some(node));
                    }
                }
            }
        }
        Ok(None)
    }
}

/// What is known of the nodes that a node reaches: of all of them, if each has a segment and there is no cycle among them.
/// Each turn enters a node that hasn't been entered, so there is one turn for each segment.
pub fn survey(alloc: Global, segments: &Segments, start: NodeNo) -> Result<Known, Memory>
    ensures straight { IfOk result (λ known. AreOffCycles segments.now known.straight) }
    ensures closed { IfOk result (λ known. AreClosed segments.now known.closed) }
{
    let mut search = Search {
        entered: Visits::new(alloc),
        known: Known::new(alloc),
        tasks: List::new(alloc),
    };
    search.tasks.add(Task::Enter(start))?;
    for _ in segments.as_slice() {
        if let Some(node) = search.next(alloc, segments)? {
            search.enter(alloc, segments, node)?;
        }
    }
    search.next(alloc, segments)?;
    Ok(search.known)
}
