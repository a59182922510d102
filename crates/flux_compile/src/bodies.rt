//! The code of bodies.

ghost use Rattle.std.specs.Prelude.{◌≡◌, ◌+◌, ◌<◌, ◌^◌, ◌++◌, ◌∷◌, [], length, map, IfOk, OnOk};
ghost use Rattle.flux_model.specs.Numbered.{parts_of};
ghost use Rattle.flux_compile.specs.steps.Segments.{arms_from, members_code, body_code};

use crate::copies::copy_items;
use flux_model::{Body, Case};
use flux_plan::{Arm, Instr};
use flux_values::{List, Memory};
use std::alloc::Global;

/// The arms of cases, of which the first one's members begin at a place.
fn arms_from(alloc: Global, first: u32, cases: &[Case]) -> Result<List<Arm>, Memory>
    requires { first + length (members_code cases.now) < 2 ^ 32 }
    ensures { IfOk result (λ arms. arms ≡ arms_from first cases.now) }
{
    let mut arms = List::new(alloc);
    let mut place = first;
    for case in cases {
        arms.add(Arm {
            patterns: copy_items(alloc, case.patterns.as_slice())?,
            to: place,
        })?;
        place += case.members.len() as u32 + 1;
    }
    Ok(arms)
}

/// Runs the members of a case, and ends its arm.
fn add_arm(code: &mut List<Instr>, case: &Case) -> Result<(), Memory>
    ensures { OnOk result (code.new ≡ code.old ++ members_code (case.now ∷ [])) }
{
    for member in case.members.as_slice() {
        code.add(Instr::Go(*member))?;
    }
    code.add(Instr::Leave)
}

fn add_cases(code: &mut List<Instr>, cases: &[Case]) -> Result<(), Memory>
    ensures { OnOk result (code.new ≡ code.old ++ members_code cases.now) }
{
    for case in cases {
        add_arm(code, case)?;
    }
    Ok(())
}

/// Adds the code of a body: a call, or a choice and its arms.
pub fn add_body(alloc: Global, code: &mut List<Instr>, body: &Body) -> Result<(), Memory>
    requires { length code.old + parts_of body.now + 1 < 2 ^ 32 }
    ensures { OnOk result (code.new ≡ code.old ++ body_code (length code.old) body.now) }
{
    match body {
        Body::Concrete(_) => code.add(Instr::Call),
        Body::Abstract(cases) => {
            let first = code.len() as u32 + 1;
            code.add(Instr::Choose(arms_from(alloc, first, cases.as_slice())?))?;
            add_cases(code, cases.as_slice())
        }
    }
}
