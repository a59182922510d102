//! What the nodes answer.

ghost use Rattle.std.specs.Prelude.{◌≡◌, ◌≤◌, [], ◌∷◌, IfOk, pos, ◌+ℤ◌, length, option_copied};
ghost use Rattle.flux_values.specs.declared.values.Value.TheVariants.{Int, Text};
ghost use Rattle.flux_values.specs.declared.texts.TheConstants.{TEXT_LIMIT};
ghost use Rattle.flux_library.specs.Answers as answers;
ghost use Rattle.nodes_counter.specs.Calls as calls;

use crate::commands::amount;
use crate::nodes::Node;
use flux_library::answers::{copies, emits, fails, good, text_in, word};
use flux_spelling::append_value;
use flux_values::{Answer, Bytes, Cell, List, Memory, Put, Value};
use std::alloc::Global;

impl Node {
    /// The answer on values of the node's kinds and on its cells.
    pub fn answer(self, alloc: Global, args: &[Value], cells: &[Cell]) -> Result<Answer, Memory>
        ensures { IfOk result (λ answer. answer ≡ calls.answer_of self args.now cells.now) }
    {
        match self {
            Node::Tick | Node::Listen => good(alloc, List::new(alloc)),
            Node::Pass => good(alloc, copies(alloc, args)?),
            Node::Fail => fail(alloc, number_in(args)),
            Node::Show => show(alloc, number_in(args)),
            Node::Echo => emits(alloc, Bytes::copy(alloc, text_in(args))?),
            Node::Refuse => emits(alloc, Bytes::copy(alloc, b"error\n")?),
            Node::Command => command(alloc, text_in(args)),
            Node::Amount => good_number(alloc, amount_in(args)),
            Node::Add => add(alloc, number_under(b"total", cells), number_in(args)),
            Node::Read => good_number(alloc, number_under(b"total", cells)),
            Node::Bump => bump(alloc, number_under(b"n", cells), number_in(args)),
        }
    }
}

// What is given

fn number_in(args: &[Value]) -> i64
    ensures { result ≡ calls.the_number args.now }
{
    match args {
        [Value::Int(number)] => *number,
        _ => 0,
    }
}

fn amount_in(args: &[Value]) -> i64
    ensures { result ≡ calls.the_amount args.now }
{
    match args {
        [_, Value::Int(number)] => *number,
        _ => 0,
    }
}

/// The number under a name of the one cell, or 0.
fn number_under(name: &[u8], cells: &[Cell]) -> i64
    ensures { result ≡ calls.number_under name.now cells.now }
{
    match cells {
        [cell] => number_or_zero(cell.get(name)),
        _ => 0,
    }
}

fn number_or_zero(value: Option<&Value>) -> i64
    ensures { result ≡ calls.number_or_zero (option_copied value.entry) }
{
    match value {
        Some(Value::Int(number)) => *number,
        _ => 0,
    }
}

// Answers

fn good_number(alloc: Global, number: i64) -> Result<Answer, Memory>
    ensures { IfOk result (λ answer. answer ≡ answers.ok (Int number ∷ [])) }
{
    let mut values = List::with_room(alloc, 1)?;
    values.add(Value::Int(number))?;
    good(alloc, values)
}

/// Puts a number under a name of a cell, and is ok with another.
fn puts(alloc: Global, cell: &[u8], name: &[u8], number: i64, given: i64) -> Result<Answer, Memory>
    requires cell { length cell.now ≤ TEXT_LIMIT }
    requires name { length name.now ≤ TEXT_LIMIT }
    ensures { IfOk result (λ answer. answer ≡ calls.puts cell.now name.now number given) }
{
    let mut answer = good_number(alloc, given)?;
    answer.puts = List::with_room(alloc, 1)?;
    let (cell, name) = (word(alloc, cell)?, word(alloc, name)?);
    let value = Some(Value::Int(number));
    answer.puts.add(Put { cell, name, value })?;
    Ok(answer)
}

// Nodes

fn fail(alloc: Global, argument: i64) -> Result<Answer, Memory>
    ensures { IfOk result (λ answer. answer ≡ calls.fail_call argument) }
{
    if 1 <= argument && argument <= 255 {
        fails(alloc, argument as u16)
    } else {
        good_number(alloc, argument)
    }
}

fn show(alloc: Global, number: i64) -> Result<Answer, Memory>
    ensures { IfOk result (λ answer. answer ≡ calls.show_call number) }
{
    let mut line = Bytes::new(alloc);
    append_value(alloc, &mut line, &Value::Int(number))?;
    line.append(b"\n")?;
    emits(alloc, line)
}

fn command(alloc: Global, text: &[u8]) -> Result<Answer, Memory>
    ensures { IfOk result (λ answer. answer ≡ calls.command_call text.now) }
{
    if text == b"get".as_slice() {
        return word_and_number(alloc, b"get", 0);
    }
    match amount(alloc, text)? {
        Some(number) => word_and_number(alloc, b"add", number),
        None => fails(alloc, 2),
    }
}

fn word_and_number(alloc: Global, text: &[u8], number: i64) -> Result<Answer, Memory>
    requires { length text.now ≤ TEXT_LIMIT }
    ensures { IfOk result (λ answer. answer ≡ answers.ok (Text text.now ∷ Int number ∷ [])) }
{
    let mut values = List::with_room(alloc, 2)?;
    values.add(Value::Text(word(alloc, text)?))?;
    values.add(Value::Int(number))?;
    good(alloc, values)
}

fn add(alloc: Global, total: i64, argument: i64) -> Result<Answer, Memory>
    ensures { IfOk result (λ answer. answer ≡ calls.add_call (total +ℤ argument)) }
{
    match total.checked_add(argument) {
        Some(sum) => puts(alloc, b"counter", b"total", sum, sum),
        None => fails(alloc, 1),
    }
}

fn bump(alloc: Global, visits: i64, argument: i64) -> Result<Answer, Memory>
    ensures { IfOk result (λ answer. answer ≡ calls.bump_call (visits +ℤ pos 1) argument) }
{
    match visits.checked_add(1) {
        Some(next) => puts(alloc, b"visits", b"n", next, argument),
        None => fails(alloc, 1),
    }
}
