//! A plan whose node takes two classes in the wrong order.

ghost use Rattle.std.specs.Prelude.{◌≡◌, IfOk};
ghost use Rattle.flux_plan.specs.Faulty.{IsSized};
ghost use Rattle.call_trials.specs.Plans.{crossing};

use flux_model::{ClassNo, Mode, NodeNo};
use flux_plan::{Instr, Plan, Segment, Segments};
use flux_values::{List, Memory};
use flux_verify::{VerifyFault, verify};
use std::alloc::Global;
use std::test::Fail;

/// What the node does: it takes class 1 and then class 0, both as a writer, and calls.
fn crossing(alloc: Global) -> Result<List<Instr>, Memory>
    ensures { IfOk result (λ code. code ≡ crossing) }
{
    let mut code = List::new(alloc);
    code.add(Instr::Take(ClassNo(1), Mode::Writer))?;
    code.add(Instr::Take(ClassNo(0), Mode::Writer))?;
    code.add(Instr::Enter)?;
    code.add(Instr::Call)?;
    code.add(Instr::Exit)?;
    code.add(Instr::Drop(ClassNo(0)))?;
    code.add(Instr::Drop(ClassNo(1)))?;
    code.add(Instr::Return)?;
    Ok(code)
}

/// A plan of that node alone.
fn crossing_plan(alloc: Global) -> Result<Plan, Memory>
    ensures { IfOk result IsSized }
{
    let mut segments = List::new(alloc);
    segments.add(Segment {
        code: crossing(alloc)?,
        exit: 4,
    })?;
    Ok(Plan {
        target: NodeNo(0),
        segments: Segments::new(alloc, segments)?,
    })
}

#[test]
fn a_node_that_takes_a_lower_class_later_is_refused(rt: HostRuntime) -> Result<(), Fail> {
    let alloc = rt.alloc();
    let plan = crossing_plan(alloc)?;
    match verify(alloc, plan) {
        Ok(_) => Err(Fail::from("no fault")),
        Err(VerifyFault::Memory) => Err(Fail::from("no memory")),
        Err(VerifyFault::Bad { node, at }) => {
            assert!(rt; node.0 == 0 && at == 1, "node {}, place {at}", node.0);
            Ok(())
        }
    }
}
