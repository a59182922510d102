//! How nodes and flows end.

ghost use Rattle.std.specs.Prelude.{◌≡◌, ℕ, IfSome, IfNone};
ghost use Rattle.flow_model.specs.declared.journals.Outcome.{Outcome};
ghost use Rattle.flux_journal.specs.steps.Parts.{IsCodeText, IsExitText, IsEndText};

use crate::cuts::{behind, read_number};
use flow_model::Outcome;

/// The code after `fail `.
fn read_failure(bytes: &[u8]) -> Option<u16>
    ensures found { IfSome result (IsCodeText bytes.now) }
    ensures none { IfNone result ((code : ℕ) → IsCodeText bytes.now code → ⊥) }
{
    let code = read_number(behind(b"fail ", bytes)?, 65_535)?;
    Some(code as u16)
}

/// How a node is left.
pub fn read_exit(bytes: &[u8]) -> Option<Outcome>
    ensures found { IfSome result (IsExitText bytes.now) }
    ensures none { IfNone result ((outcome : Outcome) → IsExitText bytes.now outcome → ⊥) }
{
    if bytes == b"ok".as_slice() {
        return Some(Outcome::Good);
    }
    if bytes == b"over".as_slice() {
        return Some(Outcome::Over);
    }
    let code = read_failure(bytes)?;
    Some(Outcome::Bad(code))
}

/// How a flow ends.
pub fn read_end(bytes: &[u8]) -> Option<Outcome>
    ensures found { IfSome result (IsEndText bytes.now) }
    ensures none { IfNone result ((outcome : Outcome) → IsEndText bytes.now outcome → ⊥) }
{
    if bytes == b"done".as_slice() {
        return Some(Outcome::Good);
    }
    if bytes == b"handled".as_slice() {
        return Some(Outcome::Over);
    }
    let code = read_failure(bytes)?;
    Some(Outcome::Bad(code))
}
