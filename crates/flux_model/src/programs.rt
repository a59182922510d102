//! A program: nodes with their cases and constraints, and sources.

ghost use Rattle.std.specs.Prelude.{◌≡◌, ◌++◌, IfOk, OnOk};
ghost use Rattle.std.specs.List.{flat_map};
ghost use Rattle.flux_model.specs.Leading.{members_of, handlers_of, leads_to};

use flux_values::{List, Memory, Mode, TextBytes};
use std::alloc::Global;

/// The most classes, nodes, source lines and predicates of a program each, and the most cases and members of a
/// node together.
pub const COUNT_LIMIT: usize = 1_048_576;

/// A node of a program, by its place among the nodes.
#[derive(Clone, Copy, PartialEq, Eq)]
pub struct NodeNo(pub u32);

/// A source line of a program, by its place among the source lines.
#[derive(Clone, Copy, PartialEq, Eq)]
pub struct SourceNo(pub u32);

/// A constraint class of a program, by its place among the classes.
#[derive(Clone, Copy, PartialEq, Eq, PartialOrd, Ord, Hash)]
pub struct ClassNo(pub u32);

/// A constraint name with its scope: the whole program, or one session.
pub struct Class {
    pub name: TextBytes,
    pub session: bool,
}

impl Drop for Class {
    fn drop(self) {
        let Class { name, session } = self;
    }
}

/// A class, and how it is held.
#[derive(Clone, Copy, PartialEq, Eq)]
pub struct Hold {
    pub class: ClassNo,
    pub mode: Mode,
}

/// What a text declares. The predicates are names of the library.
pub struct Program {
    pub classes: List<Class>,
    pub nodes: List<Node>,
    pub sources: List<SourceLine>,
    pub predicates: List<TextBytes>,
}

impl Drop for Program {
    fn drop(self) {
        let Program {
            classes,
            nodes,
            sources,
            predicates,
        } = self;
    }
}

pub struct Node {
    pub name: TextBytes,
    pub body: Body,
    /// The handlers of the node's failures, by their codes.
    pub on_fail: List<HandleArm>,
    /// The constraints that the node itself declares.
    pub declared: List<Hold>,
}

impl Drop for Node {
    fn drop(self) {
        let Node {
            name,
            body,
            on_fail,
            declared,
        } = self;
    }
}

/// A handler for codes. No codes at all mean every code that no other arm of the node names.
pub struct HandleArm {
    /// From 1 to 256, where 256 is the failure of a flow none of whose cases matches.
    pub codes: List<u16>,
    pub node: NodeNo,
}

impl Drop for HandleArm {
    fn drop(self) {
        let HandleArm { codes, node } = self;
    }
}

/// What a node does: a call of the library's node of that name, or the first case that matches.
pub enum Body {
    Concrete(TextBytes),
    Abstract(List<Case>),
}

impl Drop for Body {
    fn drop(self) {
        match self {
            Body::Concrete(_) => {}
            Body::Abstract(_) => {}
        }
    }
}

/// A case of a flow. No pattern at all matches everything, and a pattern without a number matches any value;
/// a number points into the program's predicates.
pub struct Case {
    pub patterns: List<Option<u32>>,
    pub members: List<NodeNo>,
}

impl Drop for Case {
    fn drop(self) {
        let Case { patterns, members } = self;
    }
}

/// A line that starts one flow at its target for each item of its source.
pub struct SourceLine {
    pub node: NodeNo,
    pub target: NodeNo,
    /// The library's session function.
    pub session: Option<TextBytes>,
}

impl Drop for SourceLine {
    fn drop(self) {
        let SourceLine {
            node,
            target,
            session,
        } = self;
    }
}

fn add_all(led: &mut List<NodeNo>, numbers: &[NodeNo]) -> Result<(), Memory>
    ensures { OnOk result (led.new ≡ led.old ++ numbers.now) }
{
    for number in numbers {
        led.add(*number)?;
    }
    Ok(())
}

fn add_members(led: &mut List<NodeNo>, body: &Body) -> Result<(), Memory>
    ensures { OnOk result (led.new ≡ led.old ++ members_of body.now) }
{
    match body {
        Body::Concrete(_) => Ok(()),
        Body::Abstract(cases) => add_cases(led, cases.as_slice()),
    }
}

fn add_cases(led: &mut List<NodeNo>, cases: &[Case]) -> Result<(), Memory>
    ensures { OnOk result (led.new ≡ led.old ++ flat_map (λ case. case.members) cases.now) }
{
    for case in cases {
        add_all(led, case.members.as_slice())?;
    }
    Ok(())
}

fn add_handlers(led: &mut List<NodeNo>, arms: &[HandleArm]) -> Result<(), Memory>
    ensures { OnOk result (led.new ≡ led.old ++ handlers_of arms.now) }
{
    for arm in arms {
        led.add(arm.node)?;
    }
    Ok(())
}

impl Node {
    /// What the node leads to: the members of its cases, and then its handlers, in order.
    pub fn leads_to(&self, alloc: Global) -> Result<List<NodeNo>, Memory>
        ensures { IfOk result (λ led. led ≡ leads_to self.now) }
    {
        let mut led = List::new(alloc);
        add_members(&mut led, &self.body)?;
        add_handlers(&mut led, self.on_fail.as_slice())?;
        Ok(led)
    }
}
