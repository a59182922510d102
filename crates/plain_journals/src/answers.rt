//! Answers: each call answers what its library node is for, on the numbers that the calls before it put.

use crate::Plain;
use crate::keys::key_of;
use crate::rules::{Rule, Wrong, check_that};
use flow_model::{CallMade, Entry, Event, Key};
use flux_model::{Body, FlowNo, Node};
use flux_values::{Answer, CallResult, Put, Value};
use std::alloc::Global;

/// What a call answers: a number, nothing or more, or a code.
#[derive(Clone, Copy, PartialEq)]
enum Comes {
    Number(i64),
    Nothing,
    More,
    Code(u16),
}

/// What a call answers, and the number that it puts.
#[derive(Clone, Copy, PartialEq)]
struct Answered {
    comes: Comes,
    put: Option<i64>,
}

/// What a library node answers on a number, where its cell has another; none for a node that isn't known here.
fn expected(name: &[u8], given: i64, kept: i64) -> Option<Answered> {
    if name == b"Add".as_slice() {
        let sum = kept.checked_add(given);
        Some(counted(sum, sum))
    } else if name == b"Bump".as_slice() {
        Some(counted(kept.checked_add(1), Some(given)))
    } else {
        let comes = expected_alone(name, given, kept)?;
        Some(Answered { comes, put: None })
    }
}

/// What a node answers that puts a number, unless that is past all numbers.
fn counted(put: Option<i64>, gives: Option<i64>) -> Answered {
    let comes = match (put, gives) {
        (Some(_), Some(number)) => Comes::Number(number),
        _ => Comes::Code(1),
    };
    Answered { comes, put }
}

/// The same of a node that puts nothing.
fn expected_alone(name: &[u8], given: i64, kept: i64) -> Option<Comes> {
    if name == b"Read".as_slice() {
        Some(Comes::Number(kept))
    } else if name == b"Show".as_slice() {
        Some(Comes::Nothing)
    } else if name == b"Fail".as_slice() && 1 <= given && given <= 255 {
        Some(Comes::Code(given as u16))
    } else if name == b"Fail".as_slice() || name == b"Pass".as_slice() {
        Some(Comes::Number(given))
    } else {
        None
    }
}

/// The one cell of a library node, and the name in it.
fn kept_by(name: &[u8]) -> Option<(&'static [u8], &'static [u8])> {
    if name == b"Add".as_slice() || name == b"Read".as_slice() {
        Some((b"counter".as_slice(), b"total".as_slice()))
    } else if name == b"Bump".as_slice() {
        Some((b"visits".as_slice(), b"n".as_slice()))
    } else {
        None
    }
}

fn read_result(found: &CallResult) -> Comes {
    match found {
        CallResult::Bad(code) => Comes::Code(*code),
        CallResult::Good(values) => match values.as_slice() {
            [] => Comes::Nothing,
            [Value::Int(number)] => Comes::Number(*number),
            _ => Comes::More,
        },
    }
}

/// The number of the one put, which is under the node's own name in its own cell.
fn put_by(name: &[u8], puts: &[Put]) -> Result<Option<i64>, Wrong> {
    let put = match puts {
        [] => return Ok(None),
        [put] => put,
        _ => return Err(Wrong::Breaks(Rule::Put)),
    };
    let found = Some((put.cell.as_bytes(), put.name.as_bytes()));
    match &put.value {
        Some(Value::Int(number)) if kept_by(name) == found => Ok(Some(*number)),
        _ => Err(Wrong::Breaks(Rule::Put)),
    }
}

/// The number that a call was made on.
fn argument(call: &CallMade) -> Result<i64, Wrong> {
    match call.args.as_slice() {
        [Value::Int(given)] => Ok(*given),
        _ => Err(Wrong::Breaks(Rule::Answer)),
    }
}

/// The numbers that calls put, by key: each cell here has one name.
#[derive(Drop)]
struct Kept {
    numbers: Vec<(Key, i64)>,
}

impl Kept {
    fn at(&self, key: Option<Key>) -> i64 {
        let mut last = 0;
        for (other, number) in &self.numbers {
            if Some(*other) == key {
                last = *number;
            }
        }
        last
    }

    /// A call of a node that has a library name.
    fn see(&mut self, key: Option<Key>, name: &[u8], call: &CallMade) -> Result<(), Wrong> {
        let given = argument(call)?;
        let answer = call.answer.as_answer();
        let answered = Answered {
            comes: read_result(&answer.result),
            put: put_by(name, answer.puts.as_slice())?,
        };
        let is_right = expected(name, given, self.at(key)) == Some(answered);
        check_that(is_right, Rule::Answer)?;
        if let (Some(key), Some(number)) = (key, answered.put) {
            self.numbers.push((key, number))?;
        }
        Ok(())
    }
}

/// The key of a node's cell for a flow.
fn cell_key(plain: Plain, flow: FlowNo, node: &Node, name: &[u8]) -> Option<Key> {
    let (cell, _) = kept_by(name)?;
    let classes = plain.program.classes.as_slice();
    for hold in node.declared.as_slice() {
        if let Some(class) = classes.get(hold.class.0 as usize)
            && class.name.as_bytes() == cell
        {
            return Some(key_of(plain, flow, hold.class));
        }
    }
    None
}

/// Whether a text is the digits of a number, without a leading zero, and a line's end.
fn is_line_of(digits: &[u8], number: u64) -> bool {
    let [first, rest @ .., b'\n'] = digits else {
        return false;
    };
    let mut value = digit_of(*first);
    for byte in rest {
        value = value.saturating_mul(10).saturating_add(digit_of(*byte));
    }
    value == number && (*first != b'0' || rest.is_empty())
}

/// What a digit means; of another byte more than all numbers have.
fn digit_of(byte: u8) -> u64 {
    match byte {
        b'0'..=b'9' => u64::from(byte - b'0'),
        _ => u64::MAX,
    }
}

/// Whether a text is a number on a line.
fn is_line(text: &[u8], number: i64) -> bool {
    match text {
        [b'-', digits @ ..] if number < 0 => is_line_of(digits, number.unsigned_abs()),
        _ => number >= 0 && is_line_of(text, number.unsigned_abs()),
    }
}

/// `Show` emits its number on a line, and no other node emits.
fn check_emission(name: &[u8], args: &[Value], answer: &Answer) -> Result<(), Wrong> {
    let emitted = answer.emits.as_bytes();
    let is_right = match args {
        [Value::Int(given)] if name == b"Show".as_slice() => is_line(emitted, *given),
        _ => emitted.is_empty(),
    };
    check_that(is_right, Rule::Emission)
}

/// Each call of the entries has its node's answer, on what the calls before it put.
pub fn check_answers(alloc: Global, plain: Plain, entries: &[Entry]) -> Result<(), Wrong> {
    let mut kept = Kept {
        numbers: Vec::new(alloc),
    };
    for entry in entries {
        if let Event::Call(call) = &entry.event
            && let Some(node) = plain.program.nodes.get(call.node.0 as usize)
            && let Body::Concrete(name) = &node.body
        {
            let name = name.as_bytes();
            let key = cell_key(plain, entry.flow, node, name);
            kept.see(key, name, call)?;
            check_emission(name, call.args.as_slice(), call.answer.as_answer())?;
        }
    }
    Ok(())
}
