//! Words, texts and numbers as the lines of a case file spell them.

use flux_spelling::read_value;
use flux_values::{Bytes, List, ValueFault};
use std::alloc::Global;
use trial_ends::Trouble;

/// The text that is all of a spelling between quotes.
pub fn text_of(alloc: Global, spelling: &str) -> Result<Bytes, Trouble> {
    let (value, length) = match read_value(alloc, spelling.as_bytes()) {
        Ok(read) => read,
        Err(ValueFault::Memory) => return Err(Trouble::Memory),
        Err(_) => return Err(Trouble::Words),
    };
    match value.into_text() {
        Some(text) if length == spelling.len() => Ok(Bytes::copy(alloc, text.as_bytes())?),
        _ => Err(Trouble::Words),
    }
}

/// The bytes of one word: those that it has, or those that it spells between quotes.
pub fn word_of(alloc: Global, word: &str) -> Result<Bytes, Trouble> {
    if word.starts_with('"') {
        return text_of(alloc, word);
    }
    if word.is_empty() {
        return Err(Trouble::Words);
    }
    Ok(Bytes::copy(alloc, word.as_bytes())?)
}

/// The words between the blanks of a text.
pub fn words_of(alloc: Global, text: &str) -> Result<List<Bytes>, Trouble> {
    let mut words = List::new(alloc);
    for word in text.split_whitespace() {
        words.add(word_of(alloc, word)?)?;
    }
    Ok(words)
}

pub fn number_of(word: &str) -> Result<usize, Trouble> {
    match word.parse::<usize>() {
        Ok(number) => Ok(number),
        Err(_) => Err(Trouble::Words),
    }
}

/// The numbers of calls between the blanks of a text.
pub fn calls_of(alloc: Global, text: &str) -> Result<List<u64>, Trouble> {
    let mut calls = List::new(alloc);
    for word in text.split_whitespace() {
        calls.add(number_of(word)? as u64)?;
    }
    Ok(calls)
}
