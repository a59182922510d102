//! Which handler a failure has.

ghost use Rattle.std.specs.Prelude.{◌≡◌};
ghost use Rattle.std.specs.List.{find};
ghost use Rattle.std.specs.Option.{option_map};
ghost use Rattle.flow_model.specs.Matching.{handler_for, names_code, has_no_codes};

use flux_model::{HandleArm, NodeNo};

fn names_code(arm: &HandleArm, code: u16) -> bool
    ensures { result ≡ names_code code arm.now }
{
    arm.codes.iter().any(|own| *own == code)
}

/// The handler of the first arm that names the code.
fn handler_naming(arms: &[HandleArm], code: u16) -> Option<NodeNo>
    ensures { result ≡ option_map (λ arm. arm.node) (find (names_code code) arms.now) }
{
    let mut rest = arms;
    while let [arm, others @ ..] = rest {
        if names_code(arm, code) {
            return Some(arm.node);
        }
        rest = others;
    }
    None
}

/// The handler of the first arm without codes.
fn handler_of_others(arms: &[HandleArm]) -> Option<NodeNo>
    ensures { result ≡ option_map (λ arm. arm.node)
        (find (λ arm. has_no_codes arm.codes) arms.now) }
{
    let mut rest = arms;
    while let [arm, others @ ..] = rest {
        if arm.codes.is_empty() {
            return Some(arm.node);
        }
        rest = others;
    }
    None
}

/// The handler of the first arm that names the code, or else of the first arm without codes.
pub fn handler_for(arms: &[HandleArm], code: u16) -> Option<NodeNo>
    ensures { result ≡ handler_for arms.now code }
{
    match handler_naming(arms, code) {
        Some(node) => Some(node),
        None => handler_of_others(arms),
    }
}
