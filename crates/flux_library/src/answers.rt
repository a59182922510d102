//! Answers of nodes, and what they read in their arguments.

ghost use Rattle.std.specs.Prelude.{◌≡◌, ◌≤◌, IfOk, length};
ghost use Rattle.flux_values.specs.declared.texts.TheConstants.{TEXT_LIMIT};
ghost use Rattle.flux_library.specs.Answers as answers;

use flux_values::{Answer, Bytes, CallResult, List, Memory, TextBytes, Value};
use std::alloc::Global;

/// Ok with values, and nothing else.
pub fn good(alloc: Global, values: List<Value>) -> Result<Answer, Memory>
    ensures { IfOk result (λ answer. answer ≡ answers.ok values) }
{
    Ok(Answer {
        result: CallResult::Good(values),
        puts: List::new(alloc),
        emits: Bytes::new(alloc),
    })
}

/// Fails with a code, and nothing else.
pub fn fails(alloc: Global, code: u16) -> Result<Answer, Memory>
    ensures { IfOk result (λ answer. answer ≡ answers.fails code) }
{
    Ok(Answer {
        result: CallResult::Bad(code),
        puts: List::new(alloc),
        emits: Bytes::new(alloc),
    })
}

/// Ok without values, and emits bytes.
pub fn emits(alloc: Global, emits: Bytes) -> Result<Answer, Memory>
    ensures { IfOk result (λ answer. answer ≡ answers.emits emits) }
{
    Ok(Answer {
        result: CallResult::Good(List::new(alloc)),
        puts: List::new(alloc),
        emits,
    })
}

/// The same values once more.
pub fn copies(alloc: Global, values: &[Value]) -> Result<List<Value>, Memory>
    ensures { IfOk result (λ copied. copied ≡ values.now) }
{
    let mut copied = List::with_room(alloc, values.len())?;
    for value in values {
        copied.add(value.copy(alloc)?)?;
    }
    Ok(copied)
}

/// Bytes that are short enough as a text.
pub fn word(alloc: Global, bytes: &[u8]) -> Result<TextBytes, Memory>
    requires { length bytes.now ≤ TEXT_LIMIT }
    ensures { IfOk result (λ text. text ≡ bytes.now) }
{
    Ok(TextBytes::from_vec(Vec::from_slice(alloc, bytes)?))
}

/// The text of a number and a text; of no meaning for other values.
pub fn text_in(args: &[Value]) -> &[u8]
    ensures same { result.now ≡ answers.the_text args.now }
    ensures limit { length result.now ≤ TEXT_LIMIT }
{
    match args {
        [_, Value::Text(text)] => text.as_bytes(),
        _ => b"",
    }
}
