//! Keys, and how they are held.

ghost use Rattle.std.specs.Prelude.{◌≡◌, ◌≤◌, ℕ, IfSome, IfNone, length};
ghost use Rattle.flux_values.specs.declared.answers.Mode.{Mode};
ghost use Rattle.flux_model.specs.declared.programs.TheConstants.{COUNT_LIMIT};
ghost use Rattle.flow_model.specs.declared.journals.Key.{Key};
ghost use Rattle.flux_model.specs.Names.{IsNamed};
ghost use Rattle.flux_journal.specs.steps.Parts.{IsKeyText, IsModeMark, IsHoldText};

use crate::cuts::{cut, read_number};
use crate::names::find_class;
use flow_model::Key;
use flux_model::{Mode, Program};

/// The key that the bytes are: a class's name, for a session class with `@` and the session's number.
pub fn read_key(program: &Program, bytes: &[u8]) -> Option<Key>
    requires few { let p = program.now in length p.classes ≤ COUNT_LIMIT }
    requires named { IsNamed program.now }
    ensures found { IfSome result (IsKeyText program.now bytes.now) }
    ensures none { IfNone result ((key : Key) → IsKeyText program.now bytes.now key → ⊥) }
{
    match cut(b'@', bytes) {
        None => Some(Key {
            class: find_class(program, false, bytes)?,
            id: None,
        }),
        Some((name, number)) => Some(Key {
            class: find_class(program, true, name)?,
            id: Some(read_number(number, u64::MAX)?),
        }),
    }
}

/// The key and its mark, `?` or `!`, that the bytes are.
pub fn read_hold(program: &Program, bytes: &[u8]) -> Option<(Key, Mode)>
    requires few { let p = program.now in length p.classes ≤ COUNT_LIMIT }
    requires named { IsNamed program.now }
    ensures found { IfSome result (λ hold. IsHoldText program.now bytes.now hold.0 hold.1) }
    ensures none { IfNone result ((key : Key) (mode : Mode)
        → IsHoldText program.now bytes.now key mode → ⊥) }
{
    let [front @ .., last] = bytes else {
        return None;
    };
    let mode = read_mode(*last)?;
    let key = read_key(program, front)?;
    Some((key, mode))
}

fn read_mode(mark: u8) -> Option<Mode>
    ensures found { IfSome result (IsModeMark mark) }
    ensures none { IfNone result ((mode : Mode) → IsModeMark mark mode → ⊥) }
{
    match mark {
        b'?' => Some(Mode::Reader),
        b'!' => Some(Mode::Writer),
        _ => None,
    }
}
