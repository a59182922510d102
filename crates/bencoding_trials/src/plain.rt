//! A plain reader of short texts: it goes byte by byte, with what is open in a list, and builds no value.
//!
//! It knows no more of keys than that they are strings, which is all that texts of four bytes can show.

use std::alloc::Global;
use trial_ends::Trouble;

/// What comes of a text: a value of so many bytes, or the first byte at which none goes on.
#[derive(Clone, Copy, PartialEq)]
pub enum Plain {
    Read(usize),
    Bad(usize),
}

/// What is open round the next byte.
#[derive(Clone, Copy)]
enum Open {
    List,
    /// A dictionary that wants a key, or its end.
    Keys,
    /// A dictionary that wants the value of a key.
    Value,
    /// `i`
    Number,
    /// `i-`
    Minus,
    /// `i0`
    Zero,
    /// `i` and digits, after a minus sign or none
    Digits,
    /// A length so far.
    Length(usize),
    /// So many bytes are left of a string.
    String(usize),
}

/// What one byte more does.
#[derive(Clone, Copy)]
enum Step {
    Goes,
    /// A value, a key or the whole has come to its end.
    Ends,
    Stops,
}

/// A value begins.
fn begin(inside: &mut Vec<Open>, byte: u8) -> Result<Step, Trouble> {
    let begun = match byte {
        b'i' => Open::Number,
        b'l' => Open::List,
        b'd' => Open::Keys,
        b'0'..=b'9' => Open::Length(usize::from(byte - b'0')),
        _ => return Ok(Step::Stops),
    };
    inside.push(begun)?;
    Ok(Step::Goes)
}

/// A key begins, or its dictionary ends.
fn begin_key(inside: &mut Vec<Open>, byte: u8) -> Result<Step, Trouble> {
    match byte {
        b'e' => {
            let _ = inside.pop();
            Ok(Step::Ends)
        }
        b'0'..=b'9' => begin(inside, byte),
        _ => Ok(Step::Stops),
    }
}

/// The innermost open thing is now another.
fn turn(inside: &mut Vec<Open>, other: Open) -> Result<Step, Trouble> {
    let _ = inside.pop();
    inside.push(other)?;
    Ok(Step::Goes)
}

fn end(inside: &mut Vec<Open>) -> Step {
    let _ = inside.pop();
    Step::Ends
}

/// One byte of a number.
fn number(inside: &mut Vec<Open>, inner: Open, byte: u8) -> Result<Step, Trouble> {
    match (inner, byte) {
        (Open::Number, b'-') => turn(inside, Open::Minus),
        (Open::Number, b'0') => turn(inside, Open::Zero),
        (Open::Number | Open::Minus, b'1'..=b'9') => turn(inside, Open::Digits),
        (Open::Digits, b'0'..=b'9') => Ok(Step::Goes),
        (Open::Zero | Open::Digits, b'e') => Ok(end(inside)),
        _ => Ok(Step::Stops),
    }
}

/// One byte of a length: none comes after a zero.
fn length(inside: &mut Vec<Open>, so_far: usize, byte: u8) -> Result<Step, Trouble> {
    match byte {
        b':' if so_far == 0 => Ok(end(inside)),
        b':' => turn(inside, Open::String(so_far)),
        b'0'..=b'9' if so_far > 0 && so_far < 1_000 => {
            turn(inside, Open::Length(so_far * 10 + usize::from(byte - b'0')))
        }
        _ => Ok(Step::Stops),
    }
}

fn take(inside: &mut Vec<Open>, byte: u8) -> Result<Step, Trouble> {
    match inside.last().copied() {
        None | Some(Open::Value) => begin(inside, byte),
        Some(Open::List) if byte == b'e' => Ok(end(inside)),
        Some(Open::List) => begin(inside, byte),
        Some(Open::Keys) => begin_key(inside, byte),
        Some(Open::Length(so_far)) => length(inside, so_far, byte),
        Some(Open::String(left)) if left > 1 => turn(inside, Open::String(left - 1)),
        Some(Open::String(_)) => Ok(end(inside)),
        Some(inner) => number(inside, inner, byte),
    }
}

/// What round an end wants now. It is over where nothing is open.
fn settle(inside: &mut Vec<Open>) -> Result<bool, Trouble> {
    match inside.last().copied() {
        None => return Ok(true),
        Some(Open::Keys) => {
            let _ = turn(inside, Open::Value)?;
        }
        Some(Open::Value) => {
            let _ = turn(inside, Open::Keys)?;
        }
        Some(_) => {}
    }
    Ok(false)
}

/// What the plain reader says of a text.
pub fn plain_answer(alloc: Global, bytes: &[u8]) -> Result<Plain, Trouble> {
    let mut inside = Vec::new(alloc);
    for (at, byte) in bytes.iter().enumerate() {
        match take(&mut inside, *byte)? {
            Step::Stops => return Ok(Plain::Bad(at)),
            Step::Goes => {}
            Step::Ends => {
                if settle(&mut inside)? {
                    return Ok(Plain::Read(at + 1));
                }
            }
        }
    }
    Ok(Plain::Bad(bytes.len()))
}
