//! What the entries of a journal tell of calls.

use flow_model::{Entry, Event};
use flux_values::{Put, Value};

/// The greatest of a number and those that are put.
fn greatest_put(so_far: i64, puts: &[Put]) -> i64 {
    let mut greatest = so_far;
    for put in puts {
        if let Some(Value::Int(number)) = &put.value {
            greatest = greatest.max(*number);
        }
    }
    greatest
}

/// The greatest number that a call of the entries put into a cell, or 0.
pub fn greatest_in(entries: &[Entry]) -> i64 {
    let mut greatest = 0;
    for entry in entries {
        if let Event::Call(call) = &entry.event {
            greatest = greatest_put(greatest, call.answer.as_answer().puts.as_slice());
        }
    }
    greatest
}

/// How many calls are among the entries.
pub fn calls_in(entries: &[Entry]) -> u64 {
    let mut calls: u64 = 0;
    for entry in entries {
        if matches!(entry.event, Event::Call(_)) {
            calls = calls.saturating_add(1);
        }
    }
    calls
}
