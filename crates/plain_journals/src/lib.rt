//! What a journal must be, by plain lists.
//!
//! `check_journal` says which rule the entries of a journal break first: walks by recursion over a program's nodes, locks by
//! marking what is below a node, keys, sections and lines as lists, and answers made anew from what calls put. Of the code
//! that made the journal it uses the checked program and nothing else, so it is an opinion of its own. It knows sources of one
//! number and the basic and counter nodes. Trials alone use it, and no contract says what it answers.
#![tactic(auto)]

mod answers;
mod keys;
mod locks;
mod rules;
mod walks;

use flow_model::Entry;
use flux_model::{Class, Hold, Program};
use rules::check_that;
pub use rules::{Rule, Wrong};
use std::alloc::Global;

/// A number that a source gives to a flow.
#[derive(Clone, Copy)]
pub struct Given {
    pub source: u32,
    pub number: i64,
}

/// A program, the locks of its nodes, and what each of its flows is given.
#[derive(Clone, Copy)]
struct Plain<'a> {
    program: &'a Program,
    locks: &'a [Vec<Hold>],
    given: &'a [Given],
}

/// Whether classes are in order of their names, and of one name the program-wide one first.
fn is_rising(classes: &[Class]) -> bool {
    for pair in classes.windows(2) {
        match pair {
            [a, b] if (a.name.as_bytes(), a.session) < (b.name.as_bytes(), b.session) => {}
            _ => return false,
        }
    }
    true
}

/// Whether the entries are a whole and legal journal of the program's flows.
pub fn check_journal(
    alloc: Global,
    program: &Program,
    given: &[Given],
    entries: &[Entry],
) -> Result<(), Wrong> {
    let locks = locks::locks_in(alloc, program)?;
    let plain = Plain {
        program,
        locks: locks.as_slice(),
        given,
    };
    check_that(is_rising(program.classes.as_slice()), Rule::ClassOrder)?;
    keys::check_keys(alloc, plain, entries)?;
    answers::check_answers(alloc, plain, entries)?;
    walks::check_walks(plain, entries)
}
