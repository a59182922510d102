//! The headline and its kin: what the clause of `top` says of each command, as theorems.
//!
//! `flux_driver` promises one clause of every call. This crate says what follows where the words spell a command and a status was
//! answered: each law is the contract of a function that does nothing. `specs/Headline` is the headline, of `run`; the files beside
//! it say the same of the other commands, and `specs/Explained` that every status has its cause.
//!
//! The clause of `top` allows for faults of the texts of `load`, as of any others, and these laws hold for every library.
//! `specs/LoadsDone` says how `load` ends with the library that the program is built with, where its texts have no fault.
//! `specs/LoadDeclarations` has what the program's text declares. Definitions cite a limit by the name of a constant;
//! `specs/Limits` says which number each is, so that none can change without being seen. No crate uses this one.
#![tactic(auto)]

mod laws;
mod limits;
mod loads;

pub use laws::{
    addresses_have_six_bytes, audits_are_answered, audits_are_true, groups_are_built_in,
    loads_are_answered, loads_are_true, loads_are_upheld, looks_are_answered, prints_are_true,
    runs_are_answered, runs_are_true, runs_are_upheld, serving_is_answered, serving_is_true,
    simulations_are_answered, simulations_are_one, simulations_are_true, statuses_are_explained,
    swarms_are_answered, swarms_are_true, trackers_nodes_are_built_in,
};
pub use limits::limits_are_these;
pub use loads::{loads_are_done, program_is_sound};
