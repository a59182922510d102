//! The program `bencoding_trials`: what only calls show of bencoding.
//!
//! It reads all texts of at most four bytes over nine bytes, and holds each answer against a plain reader that goes
//! byte by byte; what is read is printed again. Then it tells what comes of longer texts by name.
#![tactic(auto)]

mod plain;
mod rows;

use bencoding::{BenFault, print_ben, read_ben};
use plain::{Plain, plain_answer};
use rows::{LARGE, ROWS};
use std::alloc::Global;
use std::process::ExitCode;
use trial_ends::Trouble;

/// The bytes of the short texts.
const LETTERS: &[u8; 9] = b"01-:ielda";

/// What is read of bytes: so many of them, printed again as they were; or where none goes on.
fn told(alloc: Global, bytes: &[u8]) -> Result<Plain, Trouble> {
    match read_ben(alloc, bytes) {
        Ok((value, length)) => {
            let printed = print_ben(alloc, &value)?;
            if length > bytes.len() || printed.as_bytes() != &bytes[..length] {
                return Err(Trouble::Wrong);
            }
            Ok(Plain::Read(length))
        }
        Err(BenFault::BadBen { at }) => Ok(Plain::Bad(at)),
        Err(BenFault::Memory) => Err(Trouble::Memory),
    }
}

/// How many texts of a length there are.
fn count_of(length: usize) -> usize {
    match length {
        0 => 1,
        1 => 9,
        2 => 81,
        3 => 729,
        _ => 6_561,
    }
}

/// The text of a number: its digits to the base 9 are letters.
fn text_of(alloc: Global, length: usize, number: usize) -> Result<Vec<u8>, Trouble> {
    let mut text = Vec::new(alloc);
    let mut left = number;
    for _ in 0..length {
        text.push(LETTERS[left % 9])?;
        left /= 9;
    }
    Ok(text)
}

/// For how many texts of a length the answer differs from the plain reader's.
fn others(alloc: Global, length: usize) -> Result<usize, Trouble> {
    let mut count: usize = 0;
    for number in 0..count_of(length) {
        let text = text_of(alloc, length, number)?;
        if told(alloc, text.as_slice())? != plain_answer(alloc, text.as_slice())? {
            count = count.saturating_add(1);
        }
    }
    Ok(count)
}

/// Tells what comes of a text.
fn tell<R: Print>(rt: &R, alloc: Global, name: &str, text: &[u8]) -> Result<(), Trouble> {
    match told(alloc, text)? {
        Plain::Read(length) => println!(rt; "{name}: read {length}")?,
        Plain::Bad(at) => println!(rt; "{name}: bad at {at}")?,
    }
    Ok(())
}

fn answer_short<R: Print>(rt: &R, alloc: Global) -> Result<(), Trouble> {
    for length in 0..5 {
        let texts = count_of(length);
        let wrong = others(alloc, length)?;
        println!(rt; "texts of {length} bytes: {texts}, told otherwise: {wrong}")?;
    }
    Ok(())
}

fn answer_rows<R: Print>(rt: &R, alloc: Global) -> Result<(), Trouble> {
    for (name, text) in ROWS {
        tell(rt, alloc, name, text)?;
    }
    Ok(())
}

fn answer_large<R: Print>(rt: &R, alloc: Global) -> Result<(), Trouble> {
    for (name, large) in LARGE {
        tell(rt, alloc, name, large.text(alloc)?.as_slice())?;
    }
    Ok(())
}

fn answer<R: Print>(rt: &R, alloc: Global) -> Result<(), Trouble> {
    answer_short(rt, alloc)?;
    answer_rows(rt, alloc)?;
    answer_large(rt, alloc)
}

fn main(rt: HostRuntime) -> ExitCode {
    match answer(&rt, rt.alloc()) {
        Ok(()) => ExitCode::SUCCESS,
        Err(trouble) => ExitCode::from(trouble.code()),
    }
}
