//! How many threads the program has, as the system tells.

use std::rt::Files;
use std::{fs, thread};

/// So often it is looked whether threads that were joined are gone.
const MOST_LOOKS: u32 = 10_000;

/// The number of threads in what the system reports of a process; None where it reports none.
fn count_in(text: &str) -> Option<u64> {
    for line in text.lines() {
        if let Some(rest) = line.strip_prefix("Threads:") {
            return rest.trim().parse::<u64>().ok();
        }
    }
    None
}

/// How many threads there are; None where the system doesn't tell.
pub fn thread_count<R: Files + Alloc>(rt: &R) -> Option<u64> {
    match fs::read_to_string(rt, "/proc/self/status") {
        Ok(text) => count_in(text.as_str()),
        Err(_) => None,
    }
}

/// Whether there are as many threads as there were, once those that were joined are gone.
pub fn none_left<R: Files + Alloc>(rt: &R, before: Option<u64>) -> bool {
    for _ in 0..MOST_LOOKS {
        if thread_count(rt) == before {
            return true;
        }
        thread::yield_now();
    }
    false
}
