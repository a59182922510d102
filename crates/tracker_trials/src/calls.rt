//! Calls on made-up cells, and the lines about their answers.

use crate::rows::{HASH, Held, Row};
use flux_spelling::{append_number, append_value};
use flux_values::{Answer, Bytes, CallResult, Cell, List, Put, TextBytes, Value};
use std::alloc::Global;
use trial_ends::Trouble;

/// The most peers of a swarm.
pub const PEERS: u32 = 1000;

pub fn text(alloc: Global, bytes: &[u8]) -> Result<TextBytes, Trouble> {
    match TextBytes::copy(alloc, bytes) {
        Ok(text) => Ok(text),
        Err(_) => Err(Trouble::Wrong),
    }
}

/// The name that is in place of the hash after a mark.
pub fn name(alloc: Global, mark: u8) -> Result<TextBytes, Trouble> {
    let mut name = Vec::new(alloc);
    name.push(mark)?;
    name.extend_from_slice(HASH)?;
    text(alloc, name.as_slice())
}

/// A byte for the number's last digit of 64.
fn digit(number: u32) -> u8 {
    b'0' + (number % 64) as u8
}

/// The address of a made-up peer, by its number.
pub fn address_of(number: u32) -> [u8; 6] {
    [b'0', b'0', b'0', b'0', digit(number / 64), digit(number)]
}

/// Adds a made-up peer with nothing left, by its number.
fn append_peer(swarm: &mut Vec<u8>, number: u32) -> Result<(), Trouble> {
    swarm.extend_from_slice(b"6:")?;
    swarm.extend_from_slice(&address_of(number))?;
    Ok(swarm.extend_from_slice(b"i0e")?)
}

/// The text of a swarm of so many peers, with nothing left.
pub fn swarm_of(alloc: Global, count: u32) -> Result<Vec<u8>, Trouble> {
    let mut swarm = Vec::new(alloc);
    swarm.push(b'd')?;
    for number in 0..count {
        append_peer(&mut swarm, number)?;
    }
    swarm.push(b'e')?;
    Ok(swarm)
}

/// The mark of a name and its value in the cell before a call, if it has one.
fn kept_by(alloc: Global, held: Held) -> Result<Option<(u8, Value)>, Trouble> {
    match held {
        Held::Nothing => Ok(None),
        Held::Swarm(bytes) => Ok(Some((b'p', Value::Text(text(alloc, bytes)?)))),
        Held::Peers(count) => Ok(Some((b'p', Value::Text(full_text(alloc, count)?)))),
        Held::NumberForSwarm => Ok(Some((b'p', Value::Int(1)))),
        Held::Completions(number) => Ok(Some((b'c', Value::Int(number)))),
        Held::TruthForCompletions => Ok(Some((b'c', Value::Bool(true)))),
    }
}

/// The text of a swarm of so many peers, as a value has it.
fn full_text(alloc: Global, count: u32) -> Result<TextBytes, Trouble> {
    text(alloc, swarm_of(alloc, count)?.as_slice())
}

/// The cell before a call.
pub fn cell_with(alloc: Global, held: Held) -> Result<Cell, Trouble> {
    let mut cell = Cell::new(alloc);
    if let Some((mark, value)) = kept_by(alloc, held)? {
        cell.put(name(alloc, mark)?, Some(value))?;
    }
    Ok(cell)
}

/// What a call is given.
pub fn args_of(
    alloc: Global,
    action: &[u8],
    hash: &[u8],
    peer: &[u8],
    left: i64,
) -> Result<List<Value>, Trouble> {
    let mut args = List::new(alloc);
    for word in [action, hash, peer] {
        args.add(Value::Text(text(alloc, word)?))?;
    }
    args.add(Value::Int(left))?;
    Ok(args)
}

/// What a row's node answers.
fn answer_to(alloc: Global, row: &Row) -> Result<Answer, Trouble> {
    let args = args_of(alloc, row.action, row.hash, row.peer, row.left)?;
    let cells = [cell_with(alloc, row.held)?];
    Ok(row.node.answer(alloc, args.as_slice(), cells.as_slice())?)
}

/// A put's mark, and its number or how long its text is.
fn append_put(alloc: Global, out: &mut Bytes, put: &Put) -> Result<(), Trouble> {
    out.append(if put.value.is_some() {
        b" put "
    } else {
        b" cut "
    })?;
    if let Some(mark) = put.name.as_bytes().first() {
        out.append(&[*mark])?;
    }
    match &put.value {
        Some(Value::Text(text)) => {
            out.append(b" ")?;
            append_number(alloc, out, text.as_bytes().len() as u64)?;
            out.append(b" bytes")?;
        }
        Some(value) => {
            out.append(b" ")?;
            append_value(alloc, out, value)?;
        }
        None => {}
    }
    Ok(())
}

/// The code of a call that fails, or the values that it gives.
fn append_result(alloc: Global, out: &mut Bytes, given: &CallResult) -> Result<(), Trouble> {
    match given {
        CallResult::Bad(code) => {
            out.append(b": fails ")?;
            append_number(alloc, out, u64::from(*code))?;
        }
        CallResult::Good(values) => {
            out.append(b": gives ")?;
            for value in values {
                append_value(alloc, out, value)?;
            }
        }
    }
    Ok(())
}

/// What a call gives and puts.
pub fn append_answer(alloc: Global, out: &mut Bytes, answer: &Answer) -> Result<(), Trouble> {
    append_result(alloc, out, &answer.result)?;
    for put in &answer.puts {
        append_put(alloc, out, put)?;
    }
    Ok(())
}

/// The line about what a row's node answers.
pub fn line_of(alloc: Global, row: &Row) -> Result<Bytes, Trouble> {
    let answer = answer_to(alloc, row)?;
    let mut out = Bytes::copy(alloc, row.name.as_bytes())?;
    append_answer(alloc, &mut out, &answer)?;
    out.append(b"\n")?;
    Ok(out)
}
