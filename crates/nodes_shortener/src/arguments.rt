//! What a node reads of its arguments.

ghost use Rattle.std.specs.Prelude.{◌≡◌, ◌≤◌, length};
ghost use Rattle.flux_values.specs.declared.texts.TheConstants.{TEXT_LIMIT};
ghost use Rattle.nodes_shortener.specs.Arguments as arguments;

use flux_values::Value;

/// The number that comes first, or 0.
pub fn first_number(args: &[Value]) -> i64
    ensures { result ≡ arguments.first_number args.now }
{
    match args {
        [Value::Int(number), ..] => *number,
        _ => 0,
    }
}

/// The number that comes second, or 0.
pub fn second_number(args: &[Value]) -> i64
    ensures { result ≡ arguments.second_number args.now }
{
    match args {
        [_, Value::Int(number), ..] => *number,
        _ => 0,
    }
}

/// The text that comes first, or the empty one.
pub fn first_text(args: &[Value]) -> &[u8]
    ensures same { result.now ≡ arguments.first_text args.now }
    ensures limit { length result.now ≤ TEXT_LIMIT }
{
    match args {
        [Value::Text(text), ..] => text.as_bytes(),
        _ => b"",
    }
}

/// The text that comes second, or the empty one.
pub fn second_text(args: &[Value]) -> &[u8]
    ensures same { result.now ≡ arguments.second_text args.now }
    ensures limit { length result.now ≤ TEXT_LIMIT }
{
    match args {
        [_, Value::Text(text), ..] => text.as_bytes(),
        _ => b"",
    }
}
