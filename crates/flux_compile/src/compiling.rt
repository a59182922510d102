//! Plans of sources.

ghost use Rattle.std.specs.Prelude.{◌≡◌, IfOk};
ghost use Rattle.std.specs.List.{Contains};
ghost use Rattle.flux_plan.specs.Runs.{IsPlanOf, ArePlansOf};
ghost use Rattle.flux_compile.specs.Plans.{ShareSegments};
ghost use Rattle.flux_compile.specs.Sources.{AreApart, AreSourcesEmpty};
ghost use Rattle.flux_compile.specs.steps.Segments.{segments_of, origins_of};

use crate::segments::{origins_of, segments_of};
use flux_hoist::Checked;
use flux_model::SourceLine;
use flux_plan::{Plan, Segments, VerifiedPlan};
use flux_values::{List, Memory};
use flux_verify::{VerifyFault, verify};
use std::alloc::Global;

/// The plan of a source line's target. It has no faulty place.
fn plan_of(
    alloc: Global,
    checked: &Checked,
    line: &SourceLine,
    segments: &Segments,
) -> Result<VerifiedPlan, Memory>
    requires apart { AreApart checked.now.program }
    requires among { Contains checked.now.program.sources line.now }
    requires made { let p = checked.now.program in
        segments.now ≡ segments_of (origins_of p.sources) checked.now.sets.nodes p.nodes }
    ensures walks { IfOk result (IsPlanOf checked.now.program line.now.target) }
    ensures shared { IfOk result (λ plan. plan.segments ≡ segments.now) }
{
    let plan = Plan {
        target: line.target,
        segments: segments.share()?,
    };
    match verify(alloc, plan) {
        Ok(verified) => Ok(verified),
        Err(VerifyFault::Memory) => Err(Memory),
        Err(VerifyFault::Bad { node: _, at: _ }) => unreachable!(),
    }
}

/// One plan for each source line of a checked program to whose sources' own nodes no flow comes.
pub fn compile(alloc: Global, checked: &Checked) -> Result<List<VerifiedPlan>, Memory>
    requires apart { AreApart checked.now.program }
    ensures plans { IfOk result (λ plans. ArePlansOf checked.now.program plans) }
    ensures shared { IfOk result (λ plans. ShareSegments plans) }
    ensures empty { IfOk result (λ plans. AreSourcesEmpty checked.now.program plans) }
{
    let p = &checked.program;
    let lines = p.sources.as_slice();
    let origins = origins_of(alloc, lines)?;
    let sets = checked.sets.nodes.as_slice();
    let code = segments_of(alloc, &origins, sets, p.nodes.as_slice())?;
    let segments = Segments::new(alloc, code)?;
    let mut plans = List::new(alloc);
    for line in lines {
        plans.add(plan_of(alloc, checked, line, &segments)?)?;
    }
    Ok(plans)
}
